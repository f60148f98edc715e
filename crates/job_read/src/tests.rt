use super::*;
use region_plan::{HartPlan, InsChoice, Item, MOST_REQUESTS, Pins, RegisterSet, Request, Sys};
use rv_fields::{Csr, Ins, MOST_HARTS, Mode};
use std::alloc::{AllocError, Global};
use std::test::*;

const ADDI: &str = r#"{"ins":"addi","rd":1,"rs1":0,"imm":5}"#;

const HART: &str = r#"{"mode":"M","code_pages":1,"template":[]}"#;

/// The file of a job with these harts.
fn file_of(alloc: Global, harts: &str) -> Result<String, AllocError> {
    format!(in alloc; r#"{{"version":1,"harts":[{harts}]}}"#)
}

/// The hart with this template.
fn hart_of(alloc: Global, template: &str) -> Result<String, AllocError> {
    format!(in alloc; r#"{{"mode":"M","code_pages":1,"template":[{template}]}}"#)
}

/// The file of a job of one hart with this template.
fn job_of(alloc: Global, template: &str) -> Result<String, AllocError> {
    file_of(alloc, hart_of(alloc, template)?.as_str())
}

/// A list of so many of these, one or more.
fn list_of(alloc: Global, text: &str, count: usize) -> Result<String, AllocError> {
    let mut list = String::from_str(alloc, text)?;
    for _ in 1..count {
        list.push_str(",")?;
        list.push_str(text)?;
    }
    Ok(list)
}

fn item(ins: Ins, pins: Pins) -> Item {
    Item::One(Request::Ins {
        ins: InsChoice::Named(ins),
        pins,
    })
}

fn is_not_built(alloc: Global, text: &str) -> bool {
    matches!(read_job(alloc, text.as_bytes()), Err(InputFault::NotBuilt))
}

#[test]
fn reads_a_request(rt: HostRuntime) -> Result<(), Fail> {
    let text =
        br#"{"version":1,"harts":[{"mode":"M","code_pages":1,"template":[{"ins":"addi","rd":1,"rs1":0,"imm":5}]}]}"#;
    let job = read_job(rt.alloc(), text)?;
    let pins = Pins {
        rd: Some(1),
        rs1: Some(0),
        imm: Some(5),
        ..Pins::none()
    };
    let plan = HartPlan {
        mode: Mode::M,
        code_pages: 1,
    };
    assert_eq!(rt; job.hart_count(), 1);
    assert_eq!(rt; *job.plan().hart(0), plan);
    assert_eq!(rt; job.template(0), [item(Ins::Addi, pins)].as_slice());
    Ok(())
}

#[test]
fn reads_a_sum_of_two_registers(rt: HostRuntime) -> Result<(), Fail> {
    let text = job_of(rt.alloc(), r#"{"rs2":31,"ins":"add","rd":3,"rs1":1}"#)?;
    let job = read_job(rt.alloc(), text.as_bytes())?;
    let pins = Pins {
        rd: Some(3),
        rs1: Some(1),
        rs2: Some(31),
        ..Pins::none()
    };
    assert_eq!(rt; job.hart_count(), 1);
    assert_eq!(rt; job.template(0), [item(Ins::Add, pins)].as_slice());
    Ok(())
}

#[test]
fn reads_a_request_without_sources(rt: HostRuntime) -> Result<(), Fail> {
    let text = job_of(rt.alloc(), r#"{"ins":"lui","imm":-4096,"rd":3}"#)?;
    let job = read_job(rt.alloc(), text.as_bytes())?;
    let pins = Pins {
        rd: Some(3),
        imm: Some(-4096),
        ..Pins::none()
    };
    assert_eq!(rt; job.hart_count(), 1);
    assert_eq!(rt; job.template(0), [item(Ins::Lui, pins)].as_slice());
    Ok(())
}

#[test]
fn reads_operands_that_are_left_open(rt: HostRuntime) -> Result<(), Fail> {
    let some = RegisterSet::empty().with(0).with(31);
    for (avoided, avoid) in [
        (r#"{"ins":"add"}"#, RegisterSet::empty()),
        (r#"{"ins":"add","avoid":[]}"#, RegisterSet::empty()),
        (r#"{"ins":"add","avoid":[31,0,31]}"#, some),
    ] {
        let job = read_job(rt.alloc(), job_of(rt.alloc(), avoided)?.as_bytes())?;
        let pins = Pins {
            avoid,
            ..Pins::none()
        };
        assert_eq!(rt;
            job.template(0),
            [item(Ins::Add, pins)].as_slice(),
            "{avoided}"
        );
    }
    Ok(())
}

#[test]
fn reads_a_fence(rt: HostRuntime) -> Result<(), Fail> {
    for (request, fits) in [
        (r#"{"ins":"fence","imm":255}"#, true),
        (r#"{"ins":"fence","rd":0,"rs1":0,"imm":0}"#, true),
        (r#"{"ins":"fence"}"#, true),
        (r#"{"ins":"fence","avoid":[1]}"#, true),
        (r#"{"ins":"fence","imm":256}"#, false),
        (r#"{"ins":"fence","imm":-1}"#, false),
        (r#"{"ins":"fence","rd":1,"imm":0}"#, false),
        (r#"{"ins":"fence","rs1":1,"imm":0}"#, false),
        (r#"{"ins":"fence","rs2":0,"imm":0}"#, false),
    ] {
        let text = job_of(rt.alloc(), request)?;
        assert_eq!(rt; is_not_built(rt.alloc(), text.as_str()), !fits, "{request}");
    }
    Ok(())
}

#[test]
fn reads_csr_requests(rt: HostRuntime) -> Result<(), Fail> {
    let text = job_of(
        rt.alloc(),
        r#"{"csr":"mscratch","op":"csrrw","rd":5,"rs1":0},{"csr":"mhartid","op":"read","rd":6}"#,
    )?;
    let job = read_job(rt.alloc(), text.as_bytes())?;
    let swap = Request::Csr {
        csr: Csr::Mscratch,
        ins: Ins::Csrrw,
        pins: Pins {
            rd: Some(5),
            rs1: Some(0),
            ..Pins::none()
        },
    };
    let read = Request::Csr {
        csr: Csr::Mhartid,
        ins: Ins::Csrrs,
        pins: Pins {
            rd: Some(6),
            zero_rs1: true,
            ..Pins::none()
        },
    };
    assert_eq!(rt;
        job.template(0),
        [Item::One(swap), Item::One(read)].as_slice()
    );
    Ok(())
}

#[test]
fn accepts_what_a_template_may_do_with_csrs(rt: HostRuntime) -> Result<(), Fail> {
    for (request, fits) in [
        (r#"{"csr":"sscratch","op":"csrrs","rd":5,"rs1":6}"#, true),
        (r#"{"csr":"sscratch","op":"csrrc","rd":5,"rs1":6}"#, true),
        (r#"{"csr":"mstatus","op":"csrrs","rd":5,"rs1":0}"#, true),
        (r#"{"csr":"mhartid","op":"csrrc","rd":5,"rs1":0}"#, true),
        (r#"{"csr":"satp","op":"read","rd":0}"#, true),
        (r#"{"csr":"satp","op":"read"}"#, true),
        (r#"{"csr":"mscratch","op":"csrrw"}"#, true),
        (r#"{"csr":"mscratch","op":"csrrw","rd":5}"#, true),
        (r#"{"csr":"mscratch","op":"csrrw","rs1":0}"#, true),
        (r#"{"csr":"mstatus","op":"csrrs","rs1":0}"#, true),
        (r#"{"csr":"mstatus","op":"csrrs","rd":5}"#, false),
        (r#"{"csr":"mstatus","op":"csrrs","rd":5,"rs1":1}"#, false),
        (r#"{"csr":"mepc","op":"csrrw","rd":5,"rs1":0}"#, false),
        (r#"{"csr":"mhartid","op":"csrrw","rd":5,"rs1":0}"#, false),
        (r#"{"csr":"mcause","op":"read","rd":5}"#, false),
        (r#"{"csr":"mtval","op":"read","rd":5}"#, false),
        (r#"{"csr":"mie","op":"read","rd":5}"#, false),
        (r#"{"csr":"mideleg","op":"read","rd":5}"#, false),
        (r#"{"csr":"pmpcfg0","op":"read","rd":5}"#, false),
        (r#"{"csr":"pmpaddr0","op":"read","rd":5}"#, false),
        (r#"{"csr":"misa","op":"read","rd":5}"#, false),
        (r#"{"csr":"mscratch","op":"read","rd":5,"rs1":0}"#, false),
        (r#"{"csr":"mscratch","op":"csrrwi","rd":5,"rs1":0}"#, false),
        (r#"{"csr":"mscratch","op":"addi","rd":5,"rs1":0}"#, false),
        (
            r#"{"csr":"mscratch","op":"csrrw","rd":5,"rs1":0,"imm":0}"#,
            false,
        ),
        (r#"{"csr":"mscratch","op":"csrrw","rd":32,"rs1":0}"#, false),
        (
            r#"{"ins":"csrrw","csr":"mscratch","op":"csrrw","rd":5,"rs1":0}"#,
            false,
        ),
    ] {
        let text = job_of(rt.alloc(), request)?;
        assert_eq!(rt; is_not_built(rt.alloc(), text.as_str()), !fits, "{request}");
    }
    Ok(())
}

#[test]
fn reads_shift_amounts(rt: HostRuntime) -> Result<(), Fail> {
    for (ins, imm, fits) in [
        ("slli", 63, true),
        ("slli", 64, false),
        ("sraiw", 31, true),
        ("sraiw", 32, false),
        ("srli", -1, false),
    ] {
        let request = format!(in rt.alloc(); r#"{{"ins":"{ins}","rd":31,"rs1":0,"imm":{imm}}}"#)?;
        let text = job_of(rt.alloc(), request.as_str())?;
        assert_eq!(rt; is_not_built(rt.alloc(), text.as_str()), !fits, "{request}");
    }
    Ok(())
}

#[test]
fn reads_two_harts_in_order(rt: HostRuntime) -> Result<(), Fail> {
    let first = hart_of(rt.alloc(), list_of(rt.alloc(), ADDI, 3)?.as_str())?;
    let text = file_of(
        rt.alloc(),
        format!(in rt.alloc(); "{first},{HART}")?.as_str(),
    )?;
    let job = read_job(rt.alloc(), text.as_bytes())?;
    assert_eq!(rt; job.hart_count(), 2);
    assert_eq!(rt; job.template(0).len(), 3);
    assert!(rt; job.template(1).is_empty());
    Ok(())
}

/// The pages of code of hart 0, where the text is read.
fn code_pages_in(alloc: Global, text: &str) -> Option<u32> {
    let job = read_job(alloc, text.as_bytes()).ok()?;
    Some(job.plan().hart(0).code_pages)
}

#[test]
fn reads_the_pages_of_code(rt: HostRuntime) -> Result<(), Fail> {
    for (code_pages, read) in [
        ("1", Some(1)),
        ("2", Some(2)),
        ("256", Some(256)),
        ("0", None),
        ("257", None),
        ("4294967297", None),
        ("-1", None),
        ("1.0", None),
        (r#""1""#, None),
    ] {
        let hart = format!(in rt.alloc();
            r#"{{"mode":"M","code_pages":{code_pages},"template":[]}}"#
        )?;
        let text = file_of(rt.alloc(), hart.as_str())?;
        assert_eq!(rt;
            code_pages_in(rt.alloc(), text.as_str()),
            read,
            "{code_pages}"
        );
        assert_eq!(rt;
            is_not_built(rt.alloc(), text.as_str()),
            read.is_none(),
            "{code_pages}"
        );
    }
    Ok(())
}

#[test]
fn reads_up_to_the_most_harts(rt: HostRuntime) -> Result<(), Fail> {
    let most = file_of(rt.alloc(), list_of(rt.alloc(), HART, MOST_HARTS)?.as_str())?;
    assert_eq!(rt;
        read_job(rt.alloc(), most.as_bytes())?.hart_count(),
        MOST_HARTS
    );
    let more = file_of(
        rt.alloc(),
        list_of(rt.alloc(), HART, MOST_HARTS + 1)?.as_str(),
    )?;
    assert!(rt; is_not_built(rt.alloc(), more.as_str()));
    Ok(())
}

#[test]
fn reads_every_source_register(rt: HostRuntime) -> Result<(), Fail> {
    for (rs1, is_register) in [(0, true), (1, true), (31, true), (32, false), (256, false)] {
        let request = format!(in rt.alloc(); r#"{{"ins":"addi","rd":1,"rs1":{rs1},"imm":5}}"#)?;
        let text = job_of(rt.alloc(), request.as_str())?;
        assert_eq!(rt;
            read_job(rt.alloc(), text.as_bytes()).is_ok(),
            is_register,
            "{rs1}"
        );
    }
    Ok(())
}

#[test]
fn reads_an_empty_template(rt: HostRuntime) -> Result<(), Fail> {
    for text in [
        r#"{"version":1,"harts":[{"mode":"M","code_pages":1,"template":[]}]}"#,
        r#" { "harts" : [ { "template" : [ ] , "code_pages" : 1 , "mode" : "M" } ] , "version" : 1 } "#,
        r#"{"version":2,"version":1,"harts":[{"mode":"M","code_pages":1,"template":[]}]}"#,
    ] {
        let job = read_job(rt.alloc(), text.as_bytes())?;
        assert_eq!(rt; job.hart_count(), 1, "{text}");
        assert!(rt; job.template(0).is_empty(), "{text}");
    }
    Ok(())
}

#[test]
fn reads_up_to_the_most_requests(rt: HostRuntime) -> Result<(), Fail> {
    let most = job_of(
        rt.alloc(),
        list_of(rt.alloc(), ADDI, MOST_REQUESTS)?.as_str(),
    )?;
    let job = read_job(rt.alloc(), most.as_bytes())?;
    assert_eq!(rt; job.hart_count(), 1);
    assert_eq!(rt; job.template(0).len(), MOST_REQUESTS);
    let more = job_of(
        rt.alloc(),
        list_of(rt.alloc(), ADDI, MOST_REQUESTS + 1)?.as_str(),
    )?;
    assert!(rt; is_not_built(rt.alloc(), more.as_str()));
    Ok(())
}

#[test]
fn reads_immediates_of_12_bits(rt: HostRuntime) -> Result<(), Fail> {
    for (imm, fits) in [(2047, true), (2048, false), (-2048, true), (-2049, false)] {
        let request = format!(in rt.alloc(); r#"{{"ins":"addi","rd":31,"rs1":0,"imm":{imm}}}"#)?;
        let text = job_of(rt.alloc(), request.as_str())?;
        assert_eq!(rt;
            read_job(rt.alloc(), text.as_bytes()).is_ok(),
            fits,
            "{imm}"
        );
        assert_eq!(rt; is_not_built(rt.alloc(), text.as_str()), !fits, "{imm}");
    }
    Ok(())
}

#[test]
fn refuses_other_requests(rt: HostRuntime) -> Result<(), Fail> {
    for request in [
        r#"{"ins":"addi","rd":32,"rs1":0,"imm":5}"#,
        r#"{"ins":"add","rd":1,"rs1":0,"imm":5}"#,
        r#"{"ins":"add","rd":1,"rs1":0,"rs2":32}"#,
        r#"{"ins":"add","rd":1,"rs1":0,"rs2":2,"imm":0}"#,
        r#"{"ins":"sub","rd":1,"rs1":0,"imm":2}"#,
        r#"{"ins":"lui","rd":1,"imm":1}"#,
        r#"{"ins":"slliw","rd":1,"rs1":0,"imm":32}"#,
        r#"{"ins":"jal","rd":1,"imm":8}"#,
        r#"{"ins":"jalr","rd":1,"rs1":0,"imm":8}"#,
        r#"{"ins":"lw","rd":1,"rs1":0,"imm":8}"#,
        r#"{"ins":"csrrw","rd":1,"rs1":0}"#,
        r#"{"ins":"ecall"}"#,
        r#"{"ins":"addi","rd":"1","rs1":0,"imm":5}"#,
        r#"{"ins":"addi","rd":1,"rs1":0,"imm":5,"avoid":0}"#,
        r#"{"ins":"addi","avoid":[32]}"#,
        r#"{"ins":"addi","avoid":[1,"x2"]}"#,
        r#"{"ins":"addi","avoids":[1]}"#,
    ] {
        let text = job_of(rt.alloc(), request)?;
        assert!(rt; is_not_built(rt.alloc(), text.as_str()), "{request}");
    }
    Ok(())
}

#[test]
fn refuses_other_harts(rt: HostRuntime) -> Result<(), Fail> {
    for harts in [
        "",
        r#"{"mode":"S","code_pages":1,"template":[]}"#,
        r#"{"mode":"M","code_pages":1}"#,
        r#"{"mode":"M","template":[]}"#,
        r#"{"mode":"M","pages":1,"template":[]}"#,
        r#"{"mode":"M","code_pages":1,"template":[]},{"mode":"S","code_pages":1,"template":[]}"#,
    ] {
        let text = file_of(rt.alloc(), harts)?;
        assert!(rt; is_not_built(rt.alloc(), text.as_str()), "{harts}");
    }
    Ok(())
}

#[test]
fn refuses_other_files(rt: HostRuntime) {
    for text in [
        r#"{"version":2,"harts":[{"mode":"M","code_pages":1,"template":[]}]}"#,
        r#"{"version":1.0,"harts":[{"mode":"M","code_pages":1,"template":[]}]}"#,
        r#"{"version":1,"version":2,"harts":[{"mode":"M","code_pages":1,"template":[]}]}"#,
        r#"{"version":1,"harts":[{"mode":"M","code_pages":1,"template":[]}],"avoid":[]}"#,
        r#"{"version":1}"#,
        "[]",
        "{",
    ] {
        assert!(rt; is_not_built(rt.alloc(), text), "{text}");
    }
    assert!(rt; matches!(read_job(rt.alloc(), &[0xFF]), Err(InputFault::NotBuilt)));
}

#[test]
fn reads_words_of_their_own(rt: HostRuntime) -> Result<(), Fail> {
    for (request, sys) in [
        (r#"{"sys":"ecall"}"#, Sys::Ecall),
        (r#"{"sys":"ebreak"}"#, Sys::Ebreak),
        (r#"{"sys":"zero"}"#, Sys::Zero),
        (r#"{"sys":"sfence"}"#, Sys::Sfence),
        (r#"{"sys":"ecall","avoid":[1,2]}"#, Sys::Ecall),
    ] {
        let job = read_job(rt.alloc(), job_of(rt.alloc(), request)?.as_bytes())?;
        assert_eq!(rt;
            job.template(0),
            [Item::One(Request::Sys(sys))].as_slice(),
            "{request}"
        );
    }
    Ok(())
}

#[test]
fn accepts_no_other_word(rt: HostRuntime) -> Result<(), Fail> {
    for request in [
        r#"{"sys":"mret"}"#,
        r#"{"sys":"sret"}"#,
        r#"{"sys":"ECALL"}"#,
        r#"{"sys":0}"#,
        r#"{"sys":"ecall","rd":0}"#,
        r#"{"sys":"ecall","avoid":[32]}"#,
        r#"{"sys":"ecall","avoid":[],"imm":0}"#,
        r#"{"sys":"ecall","ins":"ecall"}"#,
        r#"{"sys":"ecall","csr":"mscratch","op":"read","rd":5}"#,
        r#"{"ins":"ecall"}"#,
        r#"{"ins":"sfence.vma","rs1":0,"rs2":0}"#,
        "{}",
    ] {
        let text = job_of(rt.alloc(), request)?;
        assert!(rt; is_not_built(rt.alloc(), text.as_str()), "{request}");
    }
    Ok(())
}
