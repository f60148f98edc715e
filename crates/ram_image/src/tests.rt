use super::*;
use rv_fields::{NoMemory, RAM_END, RAM_START};
use std::alloc::Global;
use std::test::*;

/// A segment of these bytes in so many addresses.
fn segment(alloc: Global, at: u64, bytes: &[u8], size: u64) -> Result<Segment, NoMemory> {
    Ok(Segment {
        at,
        bytes: Vec::from_slice(alloc, bytes)?,
        size,
        flags: 6,
    })
}

#[test]
fn segments_are_laid(rt: HostRuntime) -> Result<(), Fail> {
    let alloc = rt.alloc();
    let first = segment(alloc, 0x8000_0ffe, &[1, 2, 3, 4, 5], 0x2000)?;
    let second = segment(alloc, 0x8fff_fffc, &[0xfe, 0xff, 0xff, 0xff], 4)?;
    let segments = vec![in alloc; first, second]?;
    let ram = Ram::from_segments(alloc, &segments)?;
    assert_eq!(rt; ram.load(0x8000_0ffe, 1), Some(1));
    assert_eq!(rt; ram.load(0x8000_0ffe, 2), Some(0x0201));
    assert_eq!(rt; ram.load(0x8000_1000, 4), Some(0x0005_0403));
    assert_eq!(rt; ram.load(0x8000_2ff0, 8), Some(0));
    assert_eq!(rt; ram.load(0x8fff_fff8, 8), Some(0xffff_fffe_0000_0000));
    assert_eq!(rt; ram.load(0x8500_0000, 8), Some(0));
    // across the end of a page
    assert_eq!(rt; ram.load(0x8000_0ffc, 8), Some(0x0005_0403_0201_0000));
    Ok(())
}

#[test]
fn outside_ram_there_is_nothing(rt: HostRuntime) -> Result<(), Fail> {
    let alloc = rt.alloc();
    let around = segment(alloc, 0x7fff_fffe, &[1, 2, 3, 4], u64::MAX)?;
    let segments = vec![in alloc; around]?;
    let ram = Ram::from_segments(alloc, &segments)?;
    assert_eq!(rt; ram.load(0x7fff_ffff, 1), None);
    assert_eq!(rt; ram.load(0x7fff_fffc, 8), None);
    assert_eq!(rt; ram.load(RAM_START, 2), Some(0x0403));
    assert_eq!(rt; ram.load(0x8fff_ffff, 1), Some(0));
    assert_eq!(rt; ram.load(0x8fff_ffff, 2), None);
    assert_eq!(rt; ram.load(0x8fff_fffc, 8), None);
    assert_eq!(rt; ram.load(RAM_END, 1), None);
    assert_eq!(rt; ram.load(u64::MAX, 8), None);
    Ok(())
}

#[test]
fn the_first_of_two_segments_counts(rt: HostRuntime) -> Result<(), Fail> {
    let alloc = rt.alloc();
    let over = segment(alloc, 0x8000_0002, &[7], 2)?;
    let under = segment(alloc, RAM_START, &[1, 2, 3, 4, 5, 6, 7, 8], 8)?;
    let segments = vec![in alloc; over, under]?;
    let ram = Ram::from_segments(alloc, &segments)?;
    assert_eq!(rt; ram.load(RAM_START, 8), Some(0x0807_0605_0007_0201));
    Ok(())
}

#[test]
fn bytes_are_laid_over_others(rt: HostRuntime) -> Result<(), Fail> {
    let alloc = rt.alloc();
    let mut ram = Ram::zeros(alloc)?;
    assert_eq!(rt; ram.load(0x8000_0ffc, 8), Some(0));
    // across the end of a page
    ram.lay(alloc, 0x8000_0ffc, &[1, 2, 3, 4, 5, 6, 7, 8], 8)?;
    ram.lay(alloc, 0x8000_0ffe, &[9], 3)?;
    assert_eq!(rt; ram.load(0x8000_0ffc, 8), Some(0x0807_0600_0009_0201));
    ram.lay(alloc, 0x8000_0ffc, &[], 8)?;
    assert_eq!(rt; ram.load(0x8000_0ffc, 8), Some(0));
    // more bytes than addresses
    ram.lay(alloc, RAM_START, &[1, 2, 3], 2)?;
    assert_eq!(rt; ram.load(RAM_START, 4), Some(0x0201));
    Ok(())
}

#[test]
fn stores_change_their_bytes(rt: HostRuntime) -> Result<(), Fail> {
    let alloc = rt.alloc();
    let ones = segment(alloc, RAM_START, &[0x11; 24], 24)?;
    let segments = vec![in alloc; ones]?;
    let mut ram = Ram::from_segments(alloc, &segments)?;
    ram.reserve(alloc, 0x8000_0008)?;
    ram.store(0x8000_0008, 8, 0x8877_6655_4433_2200);
    assert_eq!(rt; ram.load(0x8000_0008, 8), Some(0x8877_6655_4433_2200));
    assert_eq!(rt; ram.load(0x8000_0010, 1), Some(0x11));
    assert_eq!(rt; ram.load(0x8000_0007, 1), Some(0x11));
    ram.store(0x8000_0008, 4, 0xffff_ffff_0102_0304);
    assert_eq!(rt; ram.load(0x8000_0008, 8), Some(0x8877_6655_0102_0304));
    ram.store(0x8000_000e, 2, 0xabcd);
    ram.store(0x8000_0008, 1, 0x100);
    assert_eq!(rt; ram.load(0x8000_0008, 8), Some(0xabcd_6655_0102_0300));
    Ok(())
}

#[test]
fn room_is_made_anywhere(rt: HostRuntime) -> Result<(), Fail> {
    let alloc = rt.alloc();
    let mut ram = Ram::from_segments(alloc, &[])?;
    ram.reserve(alloc, 0x8fff_ffff)?;
    ram.store(0x8fff_fff8, 8, 0x0123_4567_89ab_cdef);
    assert_eq!(rt; ram.load(0x8fff_fffc, 4), Some(0x0123_4567));
    ram.reserve(alloc, RAM_END)?;
    assert_eq!(rt; ram.load(RAM_END, 1), None);
    Ok(())
}
