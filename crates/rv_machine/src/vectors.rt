//! One step of a hart, as another implementation makes it: written by `tools/machine-vectors` from
//! runs of QEMU.
//!
//! A group is a text of words. `case:Qemu:NAME` begins a case whose outcome is QEMU's.
//! `case:Profile:NAME` begins one in which the manuals leave a choice, QEMU takes another one, and
//! the outcome was worked out by hand. `end:COUNT` stands behind the last of so many cases. Numbers
//! are hexadecimal, but for the numbers of x registers, sizes, causes and counts. Of two words for
//! one thing the latter counts.
//!
//! | Word | Meaning |
//! |---|---|
//! | `bare`, `paged` | the words of `BARE` or `PAGED` |
//! | `before:MODE:PC` | the state before: what it doesn't name is 0, or as in `REGISTERS` |
//! | `after:MODE:PC` | the state behind: what it doesn't name is as before |
//! | `word:PA:WORD` | the instruction |
//! | `xNUMBER:VALUE` | a register; behind the step, the one that the step tells |
//! | `NAME:VALUE` | the CSR with the name; a trap writes cause, epc and tval besides |
//! | `reserved:PA:SIZE` | the reservation; where there is no such word, there is none |
//! | `at:PA:DOUBLEWORD` | eight bytes of memory |
//! | `unfetched` | the step reads no instruction |
//! | `KIND:SIZE:VA:PA`, `read:VALUE`, `wrote:VALUE` | the data access that is made |
//! | `entry:PA:PTE` | an entry that the data access reads |
//! | `trap:CAUSE:EPC:TVAL:MODE` | the trap, and the mode that it goes to |

/// What a register holds that a case doesn't name.
pub const REGISTERS: [u64; 32] = [
    0x0,
    0x101_0101_0101_0101,
    0x202_0202_0202_0202,
    0x303_0303_0303_0303,
    0x404_0404_0404_0404,
    0x505_0505_0505_0505,
    0x606_0606_0606_0606,
    0x707_0707_0707_0707,
    0x808_0808_0808_0808,
    0x909_0909_0909_0909,
    0xa0a_0a0a_0a0a_0a0a,
    0xb0b_0b0b_0b0b_0b0b,
    0xc0c_0c0c_0c0c_0c0c,
    0xd0d_0d0d_0d0d_0d0d,
    0xe0e_0e0e_0e0e_0e0e,
    0xf0f_0f0f_0f0f_0f0f,
    0x1010_1010_1010_1010,
    0x1111_1111_1111_1111,
    0x1212_1212_1212_1212,
    0x1313_1313_1313_1313,
    0x1414_1414_1414_1414,
    0x1515_1515_1515_1515,
    0x1616_1616_1616_1616,
    0x1717_1717_1717_1717,
    0x1818_1818_1818_1818,
    0x1919_1919_1919_1919,
    0x1a1a_1a1a_1a1a_1a1a,
    0x1b1b_1b1b_1b1b_1b1b,
    0x1c1c_1c1c_1c1c_1c1c,
    0x1d1d_1d1d_1d1d_1d1d,
    0x1e1e_1e1e_1e1e_1e1e,
    0x1f1f_1f1f_1f1f_1f1f,
];

/// No translation.
pub const BARE: &str = "
stvec:80008000 mtvec:80004000
";

/// Sv39, with a page of code and a page of data for U and for S each.
pub const PAGED: &str = "
stvec:80008000 satp:8000000000080100 mtvec:80004000 at:80100008:20040401 at:80100018:20040c01
at:80101000:20040801 at:80102080:20004059 at:80102088:20004049 at:80102100:200080d7
at:80102108:200080c7 at:80103000:20040801
";

pub const LOADS: &str = "
case:Qemu:lb_at_offset_0 bare before:M:80010000 word:80010000:50283 x10:80020010
  at:80020010:fedcba9876543210
  after:M:80010004 x5:10 load:1:80020010:80020010 read:10
case:Qemu:lb_at_offset_7 bare before:M:80010000 word:80010000:750283 x10:80020010
  at:80020010:fedcba9876543210
  after:M:80010004 x5:fffffffffffffffe load:1:80020017:80020017 read:fe
case:Qemu:lb_at_offset_-8 bare before:M:80010000 word:80010000:ff850283 x10:80020010
  at:80020008:7f80ff0080008180
  after:M:80010004 x5:ffffffffffffff80 load:1:80020008:80020008 read:80
case:Qemu:lh_at_offset_0 bare before:M:80010000 word:80010000:51283 x10:80020010
  at:80020010:fedcba9876543210
  after:M:80010004 x5:3210 load:2:80020010:80020010 read:3210
case:Qemu:lh_at_offset_6 bare before:M:80010000 word:80010000:651283 x10:80020010
  at:80020010:fedcba9876543210
  after:M:80010004 x5:fffffffffffffedc load:2:80020016:80020016 read:fedc
case:Qemu:lh_at_offset_-8 bare before:M:80010000 word:80010000:ff851283 x10:80020010
  at:80020008:7f80ff0080008180
  after:M:80010004 x5:ffffffffffff8180 load:2:80020008:80020008 read:8180
case:Qemu:lw_at_offset_0 bare before:M:80010000 word:80010000:52283 x10:80020010
  at:80020010:fedcba9876543210
  after:M:80010004 x5:76543210 load:4:80020010:80020010 read:76543210
case:Qemu:lw_at_offset_4 bare before:M:80010000 word:80010000:452283 x10:80020010
  at:80020010:fedcba9876543210
  after:M:80010004 x5:fffffffffedcba98 load:4:80020014:80020014 read:fedcba98
case:Qemu:lw_at_offset_-8 bare before:M:80010000 word:80010000:ff852283 x10:80020010
  at:80020008:7f80ff0080008180
  after:M:80010004 x5:ffffffff80008180 load:4:80020008:80020008 read:80008180
case:Qemu:ld_at_offset_0 bare before:M:80010000 word:80010000:53283 x10:80020010
  at:80020010:fedcba9876543210
  after:M:80010004 x5:fedcba9876543210 load:8:80020010:80020010 read:fedcba9876543210
case:Qemu:ld_at_offset_8 bare before:M:80010000 word:80010000:853283 x10:80020010
  at:80020018:fedcba9876543210
  after:M:80010004 x5:fedcba9876543210 load:8:80020018:80020018 read:fedcba9876543210
case:Qemu:ld_at_offset_-8 bare before:M:80010000 word:80010000:ff853283 x10:80020010
  at:80020008:7f80ff0080008180
  after:M:80010004 x5:7f80ff0080008180 load:8:80020008:80020008 read:7f80ff0080008180
case:Qemu:lbu_at_offset_0 bare before:M:80010000 word:80010000:54283 x10:80020010
  at:80020010:fedcba9876543210
  after:M:80010004 x5:10 load:1:80020010:80020010 read:10
case:Qemu:lbu_at_offset_7 bare before:M:80010000 word:80010000:754283 x10:80020010
  at:80020010:fedcba9876543210
  after:M:80010004 x5:fe load:1:80020017:80020017 read:fe
case:Qemu:lbu_at_offset_-8 bare before:M:80010000 word:80010000:ff854283 x10:80020010
  at:80020008:7f80ff0080008180
  after:M:80010004 x5:80 load:1:80020008:80020008 read:80
case:Qemu:lhu_at_offset_0 bare before:M:80010000 word:80010000:55283 x10:80020010
  at:80020010:fedcba9876543210
  after:M:80010004 x5:3210 load:2:80020010:80020010 read:3210
case:Qemu:lhu_at_offset_6 bare before:M:80010000 word:80010000:655283 x10:80020010
  at:80020010:fedcba9876543210
  after:M:80010004 x5:fedc load:2:80020016:80020016 read:fedc
case:Qemu:lhu_at_offset_-8 bare before:M:80010000 word:80010000:ff855283 x10:80020010
  at:80020008:7f80ff0080008180
  after:M:80010004 x5:8180 load:2:80020008:80020008 read:8180
case:Qemu:lwu_at_offset_0 bare before:M:80010000 word:80010000:56283 x10:80020010
  at:80020010:fedcba9876543210
  after:M:80010004 x5:76543210 load:4:80020010:80020010 read:76543210
case:Qemu:lwu_at_offset_4 bare before:M:80010000 word:80010000:456283 x10:80020010
  at:80020010:fedcba9876543210
  after:M:80010004 x5:fedcba98 load:4:80020014:80020014 read:fedcba98
case:Qemu:lwu_at_offset_-8 bare before:M:80010000 word:80010000:ff856283 x10:80020010
  at:80020008:7f80ff0080008180
  after:M:80010004 x5:80008180 load:4:80020008:80020008 read:80008180
case:Qemu:ld_in_S bare before:S:80010000 word:80010000:53283 x10:80020000
  at:80020000:8877665544332211
  after:S:80010004 x5:8877665544332211 load:8:80020000:80020000 read:8877665544332211
case:Qemu:ld_in_U bare before:U:80010000 word:80010000:53283 x10:80020000
  at:80020000:8877665544332211
  after:U:80010004 x5:8877665544332211 load:8:80020000:80020000 read:8877665544332211
case:Qemu:ld_at_the_start_of_RAM bare before:M:80010000 word:80010000:53283 x10:80000000
  at:80000000:8877665544332211
  after:M:80010004 x5:8877665544332211 load:8:80000000:80000000 read:8877665544332211
case:Qemu:ld_at_the_end_of_RAM bare before:M:80010000 word:80010000:53283 x10:8ffffff8
  at:8ffffff8:8877665544332211
  after:M:80010004 x5:8877665544332211 load:8:8ffffff8:8ffffff8 read:8877665544332211
case:Qemu:lb_at_the_end_of_RAM bare before:M:80010000 word:80010000:50283 x10:8fffffff
  at:8ffffff8:8877665544332211
  after:M:80010004 x5:ffffffffffffff88 load:1:8fffffff:8fffffff read:88
case:Qemu:ld_with_the_greatest_offset bare before:M:80010000 word:80010000:7f853283 x10:80020000
  at:800207f8:8877665544332211
  after:M:80010004 x5:8877665544332211 load:8:800207f8:800207f8 read:8877665544332211
case:Qemu:ld_with_the_least_offset bare before:M:80010000 word:80010000:80053283 x10:80021000
  at:80020800:8877665544332211
  after:M:80010004 x5:8877665544332211 load:8:80020800:80020800 read:8877665544332211
case:Qemu:ld_to_x0 bare before:M:80010000 word:80010000:53003 x10:80020000
  at:80020000:8877665544332211
  after:M:80010004 load:8:80020000:80020000 read:8877665544332211
case:Qemu:ld_to_its_base bare before:M:80010000 word:80010000:53503 x10:80020000
  at:80020000:8877665544332211
  after:M:80010004 x10:8877665544332211 load:8:80020000:80020000 read:8877665544332211
case:Qemu:lb_behind_RAM bare before:M:80010000 word:80010000:50283 x10:90000000
  after:M:80004000 mstatus:a00001800 trap:5:80010000:90000000:M
case:Qemu:lh_behind_RAM bare before:M:80010000 word:80010000:51283 x10:90000000
  after:M:80004000 mstatus:a00001800 trap:5:80010000:90000000:M
case:Profile:misaligned_lh bare before:M:80010000 word:80010000:51283 x10:80020001
  at:80020000:8877665544332211 at:80020008:8877665544332211
  after:M:80004000 mstatus:a00001800 trap:4:80010000:80020001:M
case:Qemu:lw_behind_RAM bare before:M:80010000 word:80010000:52283 x10:90000000
  after:M:80004000 mstatus:a00001800 trap:5:80010000:90000000:M
case:Profile:misaligned_lw bare before:M:80010000 word:80010000:52283 x10:80020002
  at:80020000:8877665544332211 at:80020008:8877665544332211
  after:M:80004000 mstatus:a00001800 trap:4:80010000:80020002:M
case:Qemu:ld_behind_RAM bare before:M:80010000 word:80010000:53283 x10:90000000
  after:M:80004000 mstatus:a00001800 trap:5:80010000:90000000:M
case:Profile:misaligned_ld bare before:M:80010000 word:80010000:53283 x10:80020004
  at:80020000:8877665544332211 at:80020008:8877665544332211
  after:M:80004000 mstatus:a00001800 trap:4:80010000:80020004:M
case:Qemu:lbu_behind_RAM bare before:M:80010000 word:80010000:54283 x10:90000000
  after:M:80004000 mstatus:a00001800 trap:5:80010000:90000000:M
case:Qemu:lhu_behind_RAM bare before:M:80010000 word:80010000:55283 x10:90000000
  after:M:80004000 mstatus:a00001800 trap:5:80010000:90000000:M
case:Profile:misaligned_lhu bare before:M:80010000 word:80010000:55283 x10:80020001
  at:80020000:8877665544332211 at:80020008:8877665544332211
  after:M:80004000 mstatus:a00001800 trap:4:80010000:80020001:M
case:Qemu:lwu_behind_RAM bare before:M:80010000 word:80010000:56283 x10:90000000
  after:M:80004000 mstatus:a00001800 trap:5:80010000:90000000:M
case:Profile:misaligned_lwu bare before:M:80010000 word:80010000:56283 x10:80020002
  at:80020000:8877665544332211 at:80020008:8877665544332211
  after:M:80004000 mstatus:a00001800 trap:4:80010000:80020002:M
case:Qemu:ld_far_from_RAM bare before:S:80010000 word:80010000:53283 x10:18000000
  after:M:80004000 mstatus:a00000800 trap:5:80010000:18000000:M
case:Qemu:ld_of_the_greatest_address bare before:M:80010000 word:80010000:ff053283 x10:8
  after:M:80004000 mstatus:a00001800 trap:5:80010000:fffffffffffffff8:M
case:Profile:lw_with_an_odd_address bare before:U:80010000 word:80010000:52283 x10:80020001
  at:80020000:8877665544332211
  after:M:80004000 trap:4:80010000:80020001:M
case:Profile:ld_with_an_odd_address bare before:S:80010000 word:80010000:53283 x10:80020007
  at:80020000:8877665544332211
  after:M:80004000 mstatus:a00000800 trap:4:80010000:80020007:M
case:Profile:lh_at_an_odd_address_behind_RAM bare before:M:80010000 word:80010000:51283 x10:90000001
  after:M:80004000 mstatus:a00001800 trap:4:80010000:90000001:M
case:Profile:ld_across_the_end_of_RAM bare before:M:80010000 word:80010000:53283 x10:8ffffffc
  after:M:80004000 mstatus:a00001800 trap:4:80010000:8ffffffc:M
case:Qemu:ld_to_x0_behind_RAM bare before:M:80010000 word:80010000:53003 x10:90000000
  after:M:80004000 mstatus:a00001800 trap:5:80010000:90000000:M
case:Profile:misaligned_lh_to_x0 bare before:M:80010000 word:80010000:51003 x10:80020001
  after:M:80004000 mstatus:a00001800 trap:4:80010000:80020001:M
end:50";

pub const STORES: &str = "
case:Qemu:sb_at_offset_0 bare before:M:80010000 word:80010000:b50023 x10:80020010
  x11:fedcba9876543210 at:80020010:8877665544332211
  after:M:80010004 at:80020010:8877665544332210 store:1:80020010:80020010 wrote:10
case:Qemu:sb_at_offset_7 bare before:M:80010000 word:80010000:b503a3 x10:80020010
  x11:123456789abcdef at:80020010:8877665544332211
  after:M:80010004 at:80020010:ef77665544332211 store:1:80020017:80020017 wrote:ef
case:Qemu:sb_at_offset_-8 bare before:M:80010000 word:80010000:feb50c23 x10:80020010 x11:0
  at:80020008:8877665544332211
  after:M:80010004 at:80020008:8877665544332200 store:1:80020008:80020008 wrote:0
case:Qemu:sb_behind_RAM bare before:M:80010000 word:80010000:b50023 x10:90000000 x11:1
  after:M:80004000 mstatus:a00001800 trap:7:80010000:90000000:M
case:Qemu:sh_at_offset_0 bare before:M:80010000 word:80010000:b51023 x10:80020010
  x11:fedcba9876543210 at:80020010:8877665544332211
  after:M:80010004 at:80020010:8877665544333210 store:2:80020010:80020010 wrote:3210
case:Qemu:sh_at_offset_6 bare before:M:80010000 word:80010000:b51323 x10:80020010
  x11:123456789abcdef at:80020010:8877665544332211
  after:M:80010004 at:80020010:cdef665544332211 store:2:80020016:80020016 wrote:cdef
case:Qemu:sh_at_offset_-8 bare before:M:80010000 word:80010000:feb51c23 x10:80020010 x11:0
  at:80020008:8877665544332211
  after:M:80010004 at:80020008:8877665544330000 store:2:80020008:80020008 wrote:0
case:Qemu:sh_behind_RAM bare before:M:80010000 word:80010000:b51023 x10:90000000 x11:1
  after:M:80004000 mstatus:a00001800 trap:7:80010000:90000000:M
case:Profile:misaligned_sh bare before:M:80010000 word:80010000:b51023 x10:80020001 x11:1
  at:80020000:8877665544332211
  after:M:80004000 mstatus:a00001800 trap:6:80010000:80020001:M
case:Qemu:sw_at_offset_0 bare before:M:80010000 word:80010000:b52023 x10:80020010
  x11:fedcba9876543210 at:80020010:8877665544332211
  after:M:80010004 at:80020010:8877665576543210 store:4:80020010:80020010 wrote:76543210
case:Qemu:sw_at_offset_4 bare before:M:80010000 word:80010000:b52223 x10:80020010
  x11:123456789abcdef at:80020010:8877665544332211
  after:M:80010004 at:80020010:89abcdef44332211 store:4:80020014:80020014 wrote:89abcdef
case:Qemu:sw_at_offset_-8 bare before:M:80010000 word:80010000:feb52c23 x10:80020010 x11:0
  at:80020008:8877665544332211
  after:M:80010004 at:80020008:8877665500000000 store:4:80020008:80020008 wrote:0
case:Qemu:sw_behind_RAM bare before:M:80010000 word:80010000:b52023 x10:90000000 x11:1
  after:M:80004000 mstatus:a00001800 trap:7:80010000:90000000:M
case:Profile:misaligned_sw bare before:M:80010000 word:80010000:b52023 x10:80020002 x11:1
  at:80020000:8877665544332211
  after:M:80004000 mstatus:a00001800 trap:6:80010000:80020002:M
case:Qemu:sd_at_offset_0 bare before:M:80010000 word:80010000:b53023 x10:80020010
  x11:fedcba9876543210 at:80020010:8877665544332211
  after:M:80010004 at:80020010:fedcba9876543210 store:8:80020010:80020010 wrote:fedcba9876543210
case:Qemu:sd_at_offset_8 bare before:M:80010000 word:80010000:b53423 x10:80020010
  x11:123456789abcdef at:80020018:8877665544332211
  after:M:80010004 at:80020018:123456789abcdef store:8:80020018:80020018 wrote:123456789abcdef
case:Qemu:sd_at_offset_-8 bare before:M:80010000 word:80010000:feb53c23 x10:80020010 x11:0
  at:80020008:8877665544332211
  after:M:80010004 at:80020008:0 store:8:80020008:80020008 wrote:0
case:Qemu:sd_behind_RAM bare before:M:80010000 word:80010000:b53023 x10:90000000 x11:1
  after:M:80004000 mstatus:a00001800 trap:7:80010000:90000000:M
case:Profile:misaligned_sd bare before:M:80010000 word:80010000:b53023 x10:80020004 x11:1
  at:80020000:8877665544332211
  after:M:80004000 mstatus:a00001800 trap:6:80010000:80020004:M
case:Qemu:sd_in_S bare before:S:80010000 word:80010000:b53023 x10:80020000 x11:1
  after:S:80010004 at:80020000:1 store:8:80020000:80020000 wrote:1
case:Qemu:sd_in_U bare before:U:80010000 word:80010000:b53023 x10:80020000 x11:1
  after:U:80010004 at:80020000:1 store:8:80020000:80020000 wrote:1
case:Qemu:sd_at_the_end_of_RAM bare before:M:80010000 word:80010000:b53023 x10:8ffffff8
  x11:8877665544332211
  after:M:80010004 at:8ffffff8:8877665544332211 store:8:8ffffff8:8ffffff8 wrote:8877665544332211
case:Qemu:sb_at_the_end_of_RAM bare before:M:80010000 word:80010000:b50023 x10:8fffffff
  x11:8877665544332211
  after:M:80010004 at:8ffffff8:1100000000000000 store:1:8fffffff:8fffffff wrote:11
case:Qemu:sb_with_the_greatest_offset bare before:M:80010000 word:80010000:7eb50fa3 x10:7ffff801
  x11:8877665544332211
  after:M:80010004 at:80000000:11 store:1:80000000:80000000 wrote:11
case:Qemu:sd_of_x0 bare before:M:80010000 word:80010000:53023 x10:80020000
  at:80020000:8877665544332211
  after:M:80010004 at:80020000:0 store:8:80020000:80020000 wrote:0
case:Qemu:sw_of_its_base bare before:M:80010000 word:80010000:a52223 x10:80020000
  at:80020000:8877665544332211
  after:M:80010004 at:80020000:8002000044332211 store:4:80020004:80020004 wrote:80020000
case:Qemu:sd_far_from_RAM bare before:U:80010000 word:80010000:b53023 x10:18000000 x11:1
  after:M:80004000 trap:7:80010000:18000000:M
case:Qemu:sd_of_the_greatest_address bare before:M:80010000 word:80010000:feb53823 x10:8 x11:1
  after:M:80004000 mstatus:a00001800 trap:7:80010000:fffffffffffffff8:M
case:Profile:sw_with_an_odd_address bare before:U:80010000 word:80010000:b52023 x10:80020003 x11:1
  after:M:80004000 trap:6:80010000:80020003:M
case:Profile:sh_at_an_odd_address_behind_RAM bare before:M:80010000 word:80010000:b51023
  x10:90000001 x11:1
  after:M:80004000 mstatus:a00001800 trap:6:80010000:90000001:M
case:Qemu:sd_of_a_reserved_doubleword bare before:M:80010000 word:80010000:b53023 x10:80020000
  x11:8877665544332211 reserved:80020000:8 at:80020000:1
  after:M:80010004 reserved:80020000:8 at:80020000:8877665544332211
    store:8:80020000:80020000 wrote:8877665544332211
case:Qemu:sb_into_a_reserved_granule bare before:M:80010000 word:80010000:b50023 x10:8002003f
  x11:8877665544332211 reserved:80020000:4
  after:M:80010004 reserved:80020000:4 at:80020038:1100000000000000
    store:1:8002003f:8002003f wrote:11
end:32";

pub const AMOS: &str = "
case:Qemu:amoswap.d_of_ffffffff80000001 bare before:M:80010000 word:80010000:8b532af x10:80020008
  x11:17fffffff at:80020008:ffffffff80000001
  after:M:80010004 x5:ffffffff80000001 at:80020008:17fffffff
    amo:8:80020008:80020008 read:ffffffff80000001 wrote:17fffffff
case:Qemu:amoswap.d_of_5 bare before:M:80010000 word:80010000:8b532af x10:80020008
  x11:fffffffffffffffd at:80020008:5
  after:M:80010004 x5:5 at:80020008:fffffffffffffffd
    amo:8:80020008:80020008 read:5 wrote:fffffffffffffffd
case:Qemu:amoswap.w_the_low_word bare before:M:80010000 word:80010000:8b522af x10:80020000
  x11:123456787ffffff0 at:80020000:180000011
  after:M:80010004 x5:ffffffff80000011 at:80020000:17ffffff0
    amo:4:80020000:80020000 read:80000011 wrote:7ffffff0
case:Qemu:amoswap.w_the_high_word bare before:M:80010000 word:80010000:8b522af x10:80020004
  x11:12345678fffffff0 at:80020000:7000001180000001
  after:M:80010004 x5:70000011 at:80020000:fffffff080000001
    amo:4:80020004:80020004 read:70000011 wrote:fffffff0
case:Qemu:amoadd.d_of_ffffffff80000001 bare before:M:80010000 word:80010000:b532af x10:80020008
  x11:17fffffff at:80020008:ffffffff80000001
  after:M:80010004 x5:ffffffff80000001 at:80020008:100000000
    amo:8:80020008:80020008 read:ffffffff80000001 wrote:100000000
case:Qemu:amoadd.d_of_5 bare before:M:80010000 word:80010000:b532af x10:80020008
  x11:fffffffffffffffd at:80020008:5
  after:M:80010004 x5:5 at:80020008:2 amo:8:80020008:80020008 read:5 wrote:2
case:Qemu:amoadd.w_the_low_word bare before:M:80010000 word:80010000:b522af x10:80020000
  x11:123456787ffffff0 at:80020000:180000011
  after:M:80010004 x5:ffffffff80000011 at:80020000:100000001
    amo:4:80020000:80020000 read:80000011 wrote:1
case:Qemu:amoadd.w_the_high_word bare before:M:80010000 word:80010000:b522af x10:80020004
  x11:12345678fffffff0 at:80020000:7000001180000001
  after:M:80010004 x5:70000011 at:80020000:7000000180000001
    amo:4:80020004:80020004 read:70000011 wrote:70000001
case:Qemu:amoxor.d_of_ffffffff80000001 bare before:M:80010000 word:80010000:20b532af x10:80020008
  x11:17fffffff at:80020008:ffffffff80000001
  after:M:80010004 x5:ffffffff80000001 at:80020008:fffffffefffffffe
    amo:8:80020008:80020008 read:ffffffff80000001 wrote:fffffffefffffffe
case:Qemu:amoxor.d_of_5 bare before:M:80010000 word:80010000:20b532af x10:80020008
  x11:fffffffffffffffd at:80020008:5
  after:M:80010004 x5:5 at:80020008:fffffffffffffff8
    amo:8:80020008:80020008 read:5 wrote:fffffffffffffff8
case:Qemu:amoxor.w_the_low_word bare before:M:80010000 word:80010000:20b522af x10:80020000
  x11:123456787ffffff0 at:80020000:180000011
  after:M:80010004 x5:ffffffff80000011 at:80020000:1ffffffe1
    amo:4:80020000:80020000 read:80000011 wrote:ffffffe1
case:Qemu:amoxor.w_the_high_word bare before:M:80010000 word:80010000:20b522af x10:80020004
  x11:12345678fffffff0 at:80020000:7000001180000001
  after:M:80010004 x5:70000011 at:80020000:8fffffe180000001
    amo:4:80020004:80020004 read:70000011 wrote:8fffffe1
case:Qemu:amoand.d_of_ffffffff80000001 bare before:M:80010000 word:80010000:60b532af x10:80020008
  x11:17fffffff at:80020008:ffffffff80000001
  after:M:80010004 x5:ffffffff80000001 at:80020008:100000001
    amo:8:80020008:80020008 read:ffffffff80000001 wrote:100000001
case:Qemu:amoand.d_of_5 bare before:M:80010000 word:80010000:60b532af x10:80020008
  x11:fffffffffffffffd at:80020008:5
  after:M:80010004 x5:5 amo:8:80020008:80020008 read:5 wrote:5
case:Qemu:amoand.w_the_low_word bare before:M:80010000 word:80010000:60b522af x10:80020000
  x11:123456787ffffff0 at:80020000:180000011
  after:M:80010004 x5:ffffffff80000011 at:80020000:100000010
    amo:4:80020000:80020000 read:80000011 wrote:10
case:Qemu:amoand.w_the_high_word bare before:M:80010000 word:80010000:60b522af x10:80020004
  x11:12345678fffffff0 at:80020000:7000001180000001
  after:M:80010004 x5:70000011 at:80020000:7000001080000001
    amo:4:80020004:80020004 read:70000011 wrote:70000010
case:Qemu:amoor.d_of_ffffffff80000001 bare before:M:80010000 word:80010000:40b532af x10:80020008
  x11:17fffffff at:80020008:ffffffff80000001
  after:M:80010004 x5:ffffffff80000001 at:80020008:ffffffffffffffff
    amo:8:80020008:80020008 read:ffffffff80000001 wrote:ffffffffffffffff
case:Qemu:amoor.d_of_5 bare before:M:80010000 word:80010000:40b532af x10:80020008
  x11:fffffffffffffffd at:80020008:5
  after:M:80010004 x5:5 at:80020008:fffffffffffffffd
    amo:8:80020008:80020008 read:5 wrote:fffffffffffffffd
case:Qemu:amoor.w_the_low_word bare before:M:80010000 word:80010000:40b522af x10:80020000
  x11:123456787ffffff0 at:80020000:180000011
  after:M:80010004 x5:ffffffff80000011 at:80020000:1fffffff1
    amo:4:80020000:80020000 read:80000011 wrote:fffffff1
case:Qemu:amoor.w_the_high_word bare before:M:80010000 word:80010000:40b522af x10:80020004
  x11:12345678fffffff0 at:80020000:7000001180000001
  after:M:80010004 x5:70000011 at:80020000:fffffff180000001
    amo:4:80020004:80020004 read:70000011 wrote:fffffff1
case:Qemu:amomin.d_of_ffffffff80000001 bare before:M:80010000 word:80010000:80b532af x10:80020008
  x11:17fffffff at:80020008:ffffffff80000001
  after:M:80010004 x5:ffffffff80000001
    amo:8:80020008:80020008 read:ffffffff80000001 wrote:ffffffff80000001
case:Qemu:amomin.d_of_5 bare before:M:80010000 word:80010000:80b532af x10:80020008
  x11:fffffffffffffffd at:80020008:5
  after:M:80010004 x5:5 at:80020008:fffffffffffffffd
    amo:8:80020008:80020008 read:5 wrote:fffffffffffffffd
case:Qemu:amomin.w_the_low_word bare before:M:80010000 word:80010000:80b522af x10:80020000
  x11:123456787ffffff0 at:80020000:180000011
  after:M:80010004 x5:ffffffff80000011 amo:4:80020000:80020000 read:80000011 wrote:80000011
case:Qemu:amomin.w_the_high_word bare before:M:80010000 word:80010000:80b522af x10:80020004
  x11:12345678fffffff0 at:80020000:7000001180000001
  after:M:80010004 x5:70000011 at:80020000:fffffff080000001
    amo:4:80020004:80020004 read:70000011 wrote:fffffff0
case:Qemu:amomax.d_of_ffffffff80000001 bare before:M:80010000 word:80010000:a0b532af x10:80020008
  x11:17fffffff at:80020008:ffffffff80000001
  after:M:80010004 x5:ffffffff80000001 at:80020008:17fffffff
    amo:8:80020008:80020008 read:ffffffff80000001 wrote:17fffffff
case:Qemu:amomax.d_of_5 bare before:M:80010000 word:80010000:a0b532af x10:80020008
  x11:fffffffffffffffd at:80020008:5
  after:M:80010004 x5:5 amo:8:80020008:80020008 read:5 wrote:5
case:Qemu:amomax.w_the_low_word bare before:M:80010000 word:80010000:a0b522af x10:80020000
  x11:123456787ffffff0 at:80020000:180000011
  after:M:80010004 x5:ffffffff80000011 at:80020000:17ffffff0
    amo:4:80020000:80020000 read:80000011 wrote:7ffffff0
case:Qemu:amomax.w_the_high_word bare before:M:80010000 word:80010000:a0b522af x10:80020004
  x11:12345678fffffff0 at:80020000:7000001180000001
  after:M:80010004 x5:70000011 amo:4:80020004:80020004 read:70000011 wrote:70000011
case:Qemu:amominu.d_of_ffffffff80000001 bare before:M:80010000 word:80010000:c0b532af x10:80020008
  x11:17fffffff at:80020008:ffffffff80000001
  after:M:80010004 x5:ffffffff80000001 at:80020008:17fffffff
    amo:8:80020008:80020008 read:ffffffff80000001 wrote:17fffffff
case:Qemu:amominu.d_of_5 bare before:M:80010000 word:80010000:c0b532af x10:80020008
  x11:fffffffffffffffd at:80020008:5
  after:M:80010004 x5:5 amo:8:80020008:80020008 read:5 wrote:5
case:Qemu:amominu.w_the_low_word bare before:M:80010000 word:80010000:c0b522af x10:80020000
  x11:123456787ffffff0 at:80020000:180000011
  after:M:80010004 x5:ffffffff80000011 at:80020000:17ffffff0
    amo:4:80020000:80020000 read:80000011 wrote:7ffffff0
case:Qemu:amominu.w_the_high_word bare before:M:80010000 word:80010000:c0b522af x10:80020004
  x11:12345678fffffff0 at:80020000:7000001180000001
  after:M:80010004 x5:70000011 amo:4:80020004:80020004 read:70000011 wrote:70000011
case:Qemu:amomaxu.d_of_ffffffff80000001 bare before:M:80010000 word:80010000:e0b532af x10:80020008
  x11:17fffffff at:80020008:ffffffff80000001
  after:M:80010004 x5:ffffffff80000001
    amo:8:80020008:80020008 read:ffffffff80000001 wrote:ffffffff80000001
case:Qemu:amomaxu.d_of_5 bare before:M:80010000 word:80010000:e0b532af x10:80020008
  x11:fffffffffffffffd at:80020008:5
  after:M:80010004 x5:5 at:80020008:fffffffffffffffd
    amo:8:80020008:80020008 read:5 wrote:fffffffffffffffd
case:Qemu:amomaxu.w_the_low_word bare before:M:80010000 word:80010000:e0b522af x10:80020000
  x11:123456787ffffff0 at:80020000:180000011
  after:M:80010004 x5:ffffffff80000011 amo:4:80020000:80020000 read:80000011 wrote:80000011
case:Qemu:amomaxu.w_the_high_word bare before:M:80010000 word:80010000:e0b522af x10:80020004
  x11:12345678fffffff0 at:80020000:7000001180000001
  after:M:80010004 x5:70000011 at:80020000:fffffff080000001
    amo:4:80020004:80020004 read:70000011 wrote:fffffff0
case:Qemu:amoadd.d.aq_in_S bare before:S:80010000 word:80010000:4b532af x10:80020000 x11:1
  at:80020000:ffffffffffffffff
  after:S:80010004 x5:ffffffffffffffff at:80020000:0
    amo:8:80020000:80020000 read:ffffffffffffffff wrote:0
case:Qemu:amoadd.w.rl_in_U bare before:U:80010000 word:80010000:2b522af x10:80020000 x11:1
  at:80020000:ffffffffffffffff
  after:U:80010004 x5:ffffffffffffffff at:80020000:ffffffff00000000
    amo:4:80020000:80020000 read:ffffffff wrote:0
case:Qemu:amoswap.w.aqrl bare before:M:80010000 word:80010000:eb522af x10:80020000 x11:1
  at:80020000:8877665544332211
  after:M:80010004 x5:44332211 at:80020000:8877665500000001
    amo:4:80020000:80020000 read:44332211 wrote:1
case:Qemu:amoadd.d_to_x0 bare before:M:80010000 word:80010000:b5302f x10:80020000 x11:7
  at:80020000:3
  after:M:80010004 at:80020000:a amo:8:80020000:80020000 read:3 wrote:a
case:Qemu:amoswap.d_of_its_base_to_its_base bare before:M:80010000 word:80010000:8a5352f
  x10:80020000 at:80020000:3
  after:M:80010004 x10:3 at:80020000:80020000 amo:8:80020000:80020000 read:3 wrote:80020000
case:Qemu:amoor.d_of_a_reserved_doubleword bare before:M:80010000 word:80010000:40b532af
  x10:80020000 x11:2 reserved:80020000:8 at:80020000:1
  after:M:80010004 x5:1 reserved:80020000:8 at:80020000:3 amo:8:80020000:80020000 read:1 wrote:3
case:Profile:amoswap.w_behind_RAM bare before:M:80010000 word:80010000:8b522af x10:90000000 x11:1
  after:M:80004000 mstatus:a00001800 trap:7:80010000:90000000:M
case:Qemu:misaligned_amoswap.w bare before:U:80010000 word:80010000:8b522af x10:80020002 x11:1
  at:80020000:8877665544332211
  after:M:80004000 trap:6:80010000:80020002:M
case:Profile:amoswap.d_behind_RAM bare before:M:80010000 word:80010000:8b532af x10:90000000 x11:1
  after:M:80004000 mstatus:a00001800 trap:7:80010000:90000000:M
case:Qemu:misaligned_amoswap.d bare before:U:80010000 word:80010000:8b532af x10:80020004 x11:1
  at:80020000:8877665544332211
  after:M:80004000 trap:6:80010000:80020004:M
case:Profile:amoadd.w_behind_RAM bare before:M:80010000 word:80010000:b522af x10:90000000 x11:1
  after:M:80004000 mstatus:a00001800 trap:7:80010000:90000000:M
case:Qemu:misaligned_amoadd.w bare before:U:80010000 word:80010000:b522af x10:80020002 x11:1
  at:80020000:8877665544332211
  after:M:80004000 trap:6:80010000:80020002:M
case:Profile:amoadd.d_behind_RAM bare before:M:80010000 word:80010000:b532af x10:90000000 x11:1
  after:M:80004000 mstatus:a00001800 trap:7:80010000:90000000:M
case:Qemu:misaligned_amoadd.d bare before:U:80010000 word:80010000:b532af x10:80020004 x11:1
  at:80020000:8877665544332211
  after:M:80004000 trap:6:80010000:80020004:M
case:Profile:amomaxu.w_behind_RAM bare before:M:80010000 word:80010000:e0b522af x10:90000000 x11:1
  after:M:80004000 mstatus:a00001800 trap:7:80010000:90000000:M
case:Qemu:misaligned_amomaxu.w bare before:U:80010000 word:80010000:e0b522af x10:80020002 x11:1
  at:80020000:8877665544332211
  after:M:80004000 trap:6:80010000:80020002:M
case:Profile:amomaxu.d_behind_RAM bare before:M:80010000 word:80010000:e0b532af x10:90000000 x11:1
  after:M:80004000 mstatus:a00001800 trap:7:80010000:90000000:M
case:Qemu:misaligned_amomaxu.d bare before:U:80010000 word:80010000:e0b532af x10:80020004 x11:1
  at:80020000:8877665544332211
  after:M:80004000 trap:6:80010000:80020004:M
case:Qemu:amoand.d_across_the_end_of_RAM bare before:M:80010000 word:80010000:60b532af x10:8ffffffc
  x11:1
  after:M:80004000 mstatus:a00001800 trap:6:80010000:8ffffffc:M
case:Qemu:amoand.w_with_an_odd_address bare before:M:80010000 word:80010000:60b522af x10:80020001
  x11:1
  after:M:80004000 mstatus:a00001800 trap:6:80010000:80020001:M
end:56";

pub const RESERVATIONS: &str = "
case:Qemu:lr.w bare before:M:80010000 word:80010000:100522af x10:80020008
  at:80020008:ffffffff80000001
  after:M:80010004 x5:ffffffff80000001 reserved:80020008:4 lr:4:80020008:80020008 read:80000001
case:Qemu:lr.w_in_U bare before:U:80010000 word:80010000:100522af x10:80020010
  at:80020010:8877665544332211
  after:U:80010004 x5:44332211 reserved:80020010:4 lr:4:80020010:80020010 read:44332211
case:Qemu:lr.w_takes_the_place_of_a_reservation bare before:M:80010000 word:80010000:100522af
  x10:80020008 reserved:80020000:8
  after:M:80010004 x5:0 reserved:80020008:4 lr:4:80020008:80020008 read:0
case:Profile:misaligned_lr.w bare before:M:80010000 word:80010000:100522af x10:80020002
  reserved:80020000:8
  after:M:80004000 mstatus:a00001800 reserved:80020000:8 trap:4:80010000:80020002:M
case:Profile:lr.w_behind_RAM bare before:M:80010000 word:80010000:100522af x10:90000000
  reserved:80020000:8
  after:M:80004000 mstatus:a00001800 reserved:80020000:8 trap:5:80010000:90000000:M
case:Qemu:lr.d bare before:M:80010000 word:80010000:100532af x10:80020008
  at:80020008:ffffffff80000001
  after:M:80010004 x5:ffffffff80000001 reserved:80020008:8
    lr:8:80020008:80020008 read:ffffffff80000001
case:Qemu:lr.d_in_U bare before:U:80010000 word:80010000:100532af x10:80020010
  at:80020010:8877665544332211
  after:U:80010004 x5:8877665544332211 reserved:80020010:8
    lr:8:80020010:80020010 read:8877665544332211
case:Qemu:lr.d_takes_the_place_of_a_reservation bare before:M:80010000 word:80010000:100532af
  x10:80020008 reserved:80020000:8
  after:M:80010004 x5:0 reserved:80020008:8 lr:8:80020008:80020008 read:0
case:Profile:misaligned_lr.d bare before:M:80010000 word:80010000:100532af x10:80020004
  reserved:80020000:8
  after:M:80004000 mstatus:a00001800 reserved:80020000:8 trap:4:80010000:80020004:M
case:Profile:lr.d_behind_RAM bare before:M:80010000 word:80010000:100532af x10:90000000
  reserved:80020000:8
  after:M:80004000 mstatus:a00001800 reserved:80020000:8 trap:5:80010000:90000000:M
case:Qemu:lr.w_of_a_high_word bare before:S:80010000 word:80010000:100522af x10:80020004
  at:80020000:8877665544332211
  after:S:80010004 x5:ffffffff88776655 reserved:80020004:4 lr:4:80020004:80020004 read:88776655
case:Qemu:lr.w.aqrl bare before:M:80010000 word:80010000:160522af x10:80020000
  at:80020000:8877665544332211
  after:M:80010004 x5:44332211 reserved:80020000:4 lr:4:80020000:80020000 read:44332211
case:Qemu:lr.d_to_x0 bare before:M:80010000 word:80010000:1005302f x10:80020000
  at:80020000:8877665544332211
  after:M:80010004 reserved:80020000:8 lr:8:80020000:80020000 read:8877665544332211
case:Qemu:lr.d_to_its_base bare before:M:80010000 word:80010000:1005352f x10:80020000
  at:80020000:8877665544332211
  after:M:80010004 x10:8877665544332211 reserved:80020000:8
    lr:8:80020000:80020000 read:8877665544332211
case:Qemu:sc.w_with_its_reservation bare before:M:80010000 word:80010000:18b522af x10:80020000
  x11:fedcba9876543210 reserved:80020000:4 at:80020000:8877665544332211
  after:M:80010004 x5:0 at:80020000:8877665576543210 sc:4:80020000:80020000 wrote:76543210
case:Qemu:sc.w_without_a_reservation bare before:M:80010000 word:80010000:18b522af x10:80020000
  x11:1 at:80020000:8877665544332211
  after:M:80010004 x5:1
case:Qemu:sc.w_with_a_reservation_of_the_next_doubleword bare before:M:80010000
  word:80010000:18b522af x10:80020000 x11:1 reserved:80020008:4 at:80020000:8877665544332211
  after:M:80010004 x5:1
case:Qemu:sc.w_with_a_reservation_of_another_granule bare before:M:80010000 word:80010000:18b522af
  x10:80020000 x11:1 reserved:80020040:4 at:80020000:8877665544332211
  after:M:80010004 x5:1
case:Profile:misaligned_sc.w bare before:M:80010000 word:80010000:18b522af x10:80020002 x11:1
  reserved:80020000:4
  after:M:80004000 mstatus:a00001800 reserved:80020000:4 trap:6:80010000:80020002:M
case:Profile:misaligned_sc.w_without_a_reservation bare before:M:80010000 word:80010000:18b522af
  x10:80020001 x11:1
  after:M:80004000 mstatus:a00001800 trap:6:80010000:80020001:M
case:Qemu:sc.w_behind_RAM bare before:M:80010000 word:80010000:18b522af x10:90000000 x11:1
  reserved:80020000:4
  after:M:80010004 x5:1
case:Qemu:sc.d_with_its_reservation bare before:M:80010000 word:80010000:18b532af x10:80020000
  x11:fedcba9876543210 reserved:80020000:8 at:80020000:8877665544332211
  after:M:80010004 x5:0 at:80020000:fedcba9876543210 sc:8:80020000:80020000 wrote:fedcba9876543210
case:Qemu:sc.d_without_a_reservation bare before:M:80010000 word:80010000:18b532af x10:80020000
  x11:1 at:80020000:8877665544332211
  after:M:80010004 x5:1
case:Qemu:sc.d_with_a_reservation_of_the_next_doubleword bare before:M:80010000
  word:80010000:18b532af x10:80020000 x11:1 reserved:80020008:8 at:80020000:8877665544332211
  after:M:80010004 x5:1
case:Qemu:sc.d_with_a_reservation_of_another_granule bare before:M:80010000 word:80010000:18b532af
  x10:80020000 x11:1 reserved:80020040:8 at:80020000:8877665544332211
  after:M:80010004 x5:1
case:Profile:misaligned_sc.d bare before:M:80010000 word:80010000:18b532af x10:80020004 x11:1
  reserved:80020000:8
  after:M:80004000 mstatus:a00001800 reserved:80020000:8 trap:6:80010000:80020004:M
case:Profile:misaligned_sc.d_without_a_reservation bare before:M:80010000 word:80010000:18b532af
  x10:80020001 x11:1
  after:M:80004000 mstatus:a00001800 trap:6:80010000:80020001:M
case:Qemu:sc.d_behind_RAM bare before:M:80010000 word:80010000:18b532af x10:90000000 x11:1
  reserved:80020000:8
  after:M:80010004 x5:1
case:Qemu:sc.w_of_the_high_word_of_a_reserved_low_word bare before:M:80010000 word:80010000:18b522af
  x10:80020004 x11:1 reserved:80020000:4 at:80020000:8877665544332211
  after:M:80010004 x5:1
case:Profile:sc.w_after_lr.d bare before:M:80010000 word:80010000:18b522af x10:80020000 x11:1
  reserved:80020000:8 at:80020000:8877665544332211
  after:M:80010004 x5:1
case:Qemu:sc.d_after_lr.w bare before:M:80010000 word:80010000:18b532af x10:80020000 x11:1
  reserved:80020000:4 at:80020000:8877665544332211
  after:M:80010004 x5:1
case:Profile:sc.w_after_lr.d_of_a_number_that_a_word_holds bare before:M:80010000
  word:80010000:18b522af x10:80020000 x11:1 reserved:80020000:8 at:80020000:7
  after:M:80010004 x5:1
case:Profile:sc.d_after_lr.w_of_a_number_that_a_word_holds bare before:M:80010000
  word:80010000:18b532af x10:80020000 x11:1 reserved:80020000:4 at:80020000:7
  after:M:80010004 x5:1
case:Qemu:sc.d_in_U bare before:U:80010000 word:80010000:18b532af x10:80020000 x11:1
  reserved:80020000:8 at:80020000:8877665544332211
  after:U:80010004 x5:0 at:80020000:1 sc:8:80020000:80020000 wrote:1
case:Qemu:sc.w_in_S bare before:S:80010000 word:80010000:18b522af x10:80020000 x11:ffffffffffffffff
  reserved:80020000:4 at:80020000:1
  after:S:80010004 x5:0 at:80020000:ffffffff sc:4:80020000:80020000 wrote:ffffffff
case:Qemu:sc.d.aqrl bare before:M:80010000 word:80010000:1eb532af x10:80020000 x11:5
  reserved:80020000:8
  after:M:80010004 x5:0 at:80020000:5 sc:8:80020000:80020000 wrote:5
case:Qemu:sc.d_to_x0 bare before:M:80010000 word:80010000:18b5302f x10:80020000 x11:5
  reserved:80020000:8
  after:M:80010004 at:80020000:5 sc:8:80020000:80020000 wrote:5
case:Qemu:failed_sc.d_to_x0 bare before:M:80010000 word:80010000:18b5302f x10:80020000 x11:5
  after:M:80010004
case:Qemu:sc.d_to_its_base bare before:M:80010000 word:80010000:18b5352f x10:80020000 x11:5
  reserved:80020000:8
  after:M:80010004 x10:0 at:80020000:5 sc:8:80020000:80020000 wrote:5
case:Qemu:sc.d_to_its_source bare before:M:80010000 word:80010000:18b535af x10:80020000 x11:5
  reserved:80020000:8
  after:M:80010004 x11:0 at:80020000:5 sc:8:80020000:80020000 wrote:5
case:Profile:ecall_leaves_the_reservation bare before:U:80010000 word:80010000:73
  reserved:80020000:8
  after:M:80004000 reserved:80020000:8 trap:8:80010000:0:M
case:Profile:mret_leaves_the_reservation bare before:M:80010000 word:80010000:30200073 mepc:80030000
  reserved:80020000:8
  after:U:80030000 mstatus:a00000080 reserved:80020000:8
case:Qemu:lr.d_in_a_page_of_U paged before:U:40010000 word:80010000:100532af x10:40020008
  at:80020008:8877665544332211
  after:U:40010004 x5:8877665544332211 reserved:80020008:8
    lr:8:40020008:80020008 read:8877665544332211 entry:80100008:20040401 entry:80101000:20040801
    entry:80102100:200080d7
case:Qemu:lr.w_in_a_page_of_S paged before:S:40011000 word:80010000:100522af x10:40021000
  at:80020000:8877665544332211
  after:S:40011004 x5:44332211 reserved:80020000:4 lr:4:40021000:80020000 read:44332211
    entry:80100008:20040401 entry:80101000:20040801 entry:80102108:200080c7
case:Qemu:sc.d_in_a_page_of_U paged before:U:40010000 word:80010000:18b532af x10:40020000 x11:1
  reserved:80020000:8 at:80020000:8877665544332211
  after:U:40010004 x5:0 at:80020000:1 sc:8:40020000:80020000 wrote:1 entry:80100008:20040401
    entry:80101000:20040801 entry:80102100:200080d7
case:Qemu:sc.w_in_a_page_of_S paged before:S:40011000 word:80010000:18b522af x10:40021000 x11:1
  reserved:80020000:4 at:80020000:8877665544332211
  after:S:40011004 x5:0 at:80020000:8877665500000001 sc:4:40021000:80020000 wrote:1
    entry:80100008:20040401 entry:80101000:20040801 entry:80102108:200080c7
case:Qemu:failed_sc.w_in_a_page_of_U paged before:U:40010000 word:80010000:18b522af x10:40020000
  x11:1 at:80020000:8877665544332211
  after:U:40010004 x5:1 entry:80100008:20040401 entry:80101000:20040801 entry:80102100:200080d7
case:Qemu:lr.d_in_a_page_of_S_from_U paged before:U:40010000 word:80010000:100532af x10:40021000
  reserved:80020000:8
  after:M:80004000 reserved:80020000:8 entry:80100008:20040401 entry:80101000:20040801
    entry:80102108:200080c7 trap:13:40010000:40021000:M
case:Profile:sc.d_in_a_page_of_S_from_U paged before:U:40010000 word:80010000:18b532af x10:40021000
  x11:1 reserved:80020000:8
  after:M:80004000 reserved:80020000:8 entry:80100008:20040401 entry:80101000:20040801
    entry:80102108:200080c7 trap:15:40010000:40021000:M
case:Profile:sc.w_without_a_reservation_to_no_page paged before:U:40010000 word:80010000:18b522af
  x10:40030000 x11:1
  after:M:80004000 entry:80100008:20040401 entry:80101000:20040801 entry:80102180:0
    trap:15:40010000:40030000:M
case:Profile:sc.w_without_a_reservation_to_a_page_without_W paged before:U:40010000
  word:80010000:18b522af x10:40030000 x11:1 at:80102180:200080d3
  after:M:80004000 entry:80100008:20040401 entry:80101000:20040801 entry:80102180:200080d3
    trap:15:40010000:40030000:M
case:Profile:sc.w_without_a_reservation_to_a_page_with_D_=_0 paged before:U:40010000
  word:80010000:18b522af x10:40030000 x11:1 at:80102180:20008057
  after:M:80004000 entry:80100008:20040401 entry:80101000:20040801 entry:80102180:20008057
    trap:15:40010000:40030000:M
case:Qemu:sc.d_without_a_reservation_to_a_page_outside_RAM paged before:U:40010000
  word:80010000:18b532af x10:40030000 x11:1 at:80102180:240000d7
  after:U:40010004 x5:1 entry:80100008:20040401 entry:80101000:20040801 entry:80102180:240000d7
case:Profile:sc.d_through_another_page_to_the_reserved_place paged before:U:40010000
  word:80010000:18b532af x10:40030000 x11:1 reserved:80020000:8 at:80102180:200080d7
  after:U:40010004 x5:0 at:80020000:1 sc:8:40030000:80020000 wrote:1 entry:80100008:20040401
    entry:80101000:20040801 entry:80102180:200080d7
case:Profile:misaligned_sc.d_to_no_page paged before:U:40010000 word:80010000:18b532af x10:40030004
  x11:1
  after:M:80004000 trap:6:40010000:40030004:M
end:55";

pub const JUMPS: &str = "
case:Qemu:jal_ahead bare before:M:80010000 word:80010000:100002ef
  after:M:80010100 x5:80010004
case:Qemu:jal_back bare before:U:80010000 word:80010000:f01ff2ef
  after:U:8000ff00 x5:80010004
case:Qemu:jal_to_itself bare before:S:80010000 word:80010000:6f
  after:S:80010000
case:Qemu:jal_by_the_greatest_offset bare before:M:80010000 word:80010000:7fdff0ef
  after:M:8010fffc x1:80010004
case:Qemu:jal_by_the_least_offset bare before:M:80130000 word:80130000:800000ef
  after:M:80030000 x1:80130004
case:Profile:jal_to_a_half_word bare before:M:80010000 word:80010000:6002ef
  after:M:80004000 mstatus:a00001800 trap:0:80010000:80010006:M
case:Profile:jal_back_to_a_half_word_in_U bare before:U:80010000 word:80010000:fffff2ef
  after:M:80004000 trap:0:80010000:8000fffe:M
case:Qemu:jalr bare before:M:80010000 word:80010000:10502e7 x10:80030000
  after:M:80030010 x5:80010004
case:Qemu:jalr_by_a_negative_offset bare before:U:80010000 word:80010000:800500e7 x10:80030000
  after:U:8002f800 x1:80010004
case:Qemu:jalr_clears_bit_0 bare before:M:80010000 word:80010000:1502e7 x10:80030000
  after:M:80030000 x5:80010004
case:Qemu:jalr_clears_bit_0_of_a_sum bare before:S:80010000 word:80010000:fff502e7 x10:80030002
  after:S:80030000 x5:80010004
case:Qemu:jalr_to_its_base bare before:M:80010000 word:80010000:850567 x10:80030000
  after:M:80030008 x10:80010004
case:Qemu:jalr_by_x0 bare before:M:80010000 word:80010000:4000067
  after:M:40
case:Qemu:jalr_past_2^64 bare before:M:80010000 word:80010000:14502e7 x10:fffffffffffffffc
  after:M:10 x5:80010004
case:Qemu:jalr_outside_RAM bare before:M:80010000 word:80010000:502e7 x10:90000000
  after:M:90000000 x5:80010004
case:Qemu:jalr_to_a_half_word bare before:M:80010000 word:80010000:2502e7 x10:80030000
  after:M:80004000 mstatus:a00001800 trap:0:80010000:80030002:M
case:Qemu:jalr_to_a_half_word_and_bit_0 bare before:U:80010000 word:80010000:350567 x10:80030000
  after:M:80004000 trap:0:80010000:80030002:M
case:Qemu:beq_of_ffffffffffffffff_and_1 bare before:M:80010000 word:80010000:4b50063
  x10:ffffffffffffffff x11:1
  after:M:80010004
case:Qemu:beq_of_1_and_ffffffffffffffff bare before:M:80010000 word:80010000:4b50063 x10:1
  x11:ffffffffffffffff
  after:M:80010004
case:Qemu:beq_of_5_and_5 bare before:M:80010000 word:80010000:4b50063 x10:5 x11:5
  after:M:80010040
case:Qemu:bne_of_ffffffffffffffff_and_1 bare before:M:80010000 word:80010000:4b51063
  x10:ffffffffffffffff x11:1
  after:M:80010040
case:Qemu:bne_of_1_and_ffffffffffffffff bare before:M:80010000 word:80010000:4b51063 x10:1
  x11:ffffffffffffffff
  after:M:80010040
case:Qemu:bne_of_5_and_5 bare before:M:80010000 word:80010000:4b51063 x10:5 x11:5
  after:M:80010004
case:Qemu:blt_of_ffffffffffffffff_and_1 bare before:M:80010000 word:80010000:4b54063
  x10:ffffffffffffffff x11:1
  after:M:80010040
case:Qemu:blt_of_1_and_ffffffffffffffff bare before:M:80010000 word:80010000:4b54063 x10:1
  x11:ffffffffffffffff
  after:M:80010004
case:Qemu:blt_of_5_and_5 bare before:M:80010000 word:80010000:4b54063 x10:5 x11:5
  after:M:80010004
case:Qemu:bge_of_ffffffffffffffff_and_1 bare before:M:80010000 word:80010000:4b55063
  x10:ffffffffffffffff x11:1
  after:M:80010004
case:Qemu:bge_of_1_and_ffffffffffffffff bare before:M:80010000 word:80010000:4b55063 x10:1
  x11:ffffffffffffffff
  after:M:80010040
case:Qemu:bge_of_5_and_5 bare before:M:80010000 word:80010000:4b55063 x10:5 x11:5
  after:M:80010040
case:Qemu:bltu_of_ffffffffffffffff_and_1 bare before:M:80010000 word:80010000:4b56063
  x10:ffffffffffffffff x11:1
  after:M:80010004
case:Qemu:bltu_of_1_and_ffffffffffffffff bare before:M:80010000 word:80010000:4b56063 x10:1
  x11:ffffffffffffffff
  after:M:80010040
case:Qemu:bltu_of_5_and_5 bare before:M:80010000 word:80010000:4b56063 x10:5 x11:5
  after:M:80010004
case:Qemu:bgeu_of_ffffffffffffffff_and_1 bare before:M:80010000 word:80010000:4b57063
  x10:ffffffffffffffff x11:1
  after:M:80010040
case:Qemu:bgeu_of_1_and_ffffffffffffffff bare before:M:80010000 word:80010000:4b57063 x10:1
  x11:ffffffffffffffff
  after:M:80010004
case:Qemu:bgeu_of_5_and_5 bare before:M:80010000 word:80010000:4b57063 x10:5 x11:5
  after:M:80010040
case:Qemu:beq_back bare before:U:80010000 word:80010000:80000063
  after:U:8000f000
case:Qemu:beq_by_the_greatest_offset bare before:S:80010000 word:80010000:7e000ee3
  after:S:80010ffc
case:Profile:beq_to_a_half_word bare before:M:80010000 word:80010000:4b50163 x10:1 x11:1
  after:M:80004000 mstatus:a00001800 trap:0:80010000:80010042:M
case:Profile:bne_to_a_half_word bare before:M:80010000 word:80010000:4b51163 x10:1 x11:2
  after:M:80004000 mstatus:a00001800 trap:0:80010000:80010042:M
case:Profile:blt_to_a_half_word bare before:M:80010000 word:80010000:4b54163 x10:ffffffffffffffff
  x11:0
  after:M:80004000 mstatus:a00001800 trap:0:80010000:80010042:M
case:Profile:bge_to_a_half_word bare before:M:80010000 word:80010000:4b55163 x10:1 x11:1
  after:M:80004000 mstatus:a00001800 trap:0:80010000:80010042:M
case:Profile:bltu_to_a_half_word bare before:M:80010000 word:80010000:4b56163 x10:0
  x11:ffffffffffffffff
  after:M:80004000 mstatus:a00001800 trap:0:80010000:80010042:M
case:Profile:bgeu_to_a_half_word bare before:M:80010000 word:80010000:4b57163 x10:ffffffffffffffff
  x11:0
  after:M:80004000 mstatus:a00001800 trap:0:80010000:80010042:M
case:Qemu:bne_to_a_half_word_not_taken bare before:M:80010000 word:80010000:4b51163 x10:1 x11:1
  after:M:80010004
case:Qemu:addi bare before:M:80010000 word:80010000:fff50293 x10:0
  after:M:80010004 x5:ffffffffffffffff
case:Qemu:lui bare before:M:80010000 word:80010000:800002b7
  after:M:80010004 x5:ffffffff80000000
case:Qemu:auipc bare before:M:80010000 word:80010000:80000297
  after:M:80010004 x5:10000
case:Qemu:add_to_x0 bare before:M:80010000 word:80010000:b50033 x10:1 x11:2
  after:M:80010004
case:Qemu:add_of_a_register_to_itself bare before:U:80010000 word:80010000:a50533
  x10:8000000000000005
  after:U:80010004 x10:a
case:Qemu:div_by_zero bare before:S:80010000 word:80010000:20542b3 x10:7
  after:S:80010004 x5:ffffffffffffffff
end:50";

pub const CSR_READS: &str = "
case:Qemu:sstatus_in_M bare before:M:80010000 word:80010000:100022f3 mstatus:c09a0
  after:M:80010004 x5:2000c0120
case:Qemu:sstatus_in_S bare before:S:80010000 word:80010000:100032f3 mstatus:c09a0
  after:S:80010004 x5:2000c0120
case:Qemu:sstatus_in_U bare before:U:80010000 word:80010000:100062f3
  after:M:80004000 trap:2:80010000:100062f3:M
case:Qemu:stvec_in_M bare before:M:80010000 word:80010000:105022f3
  after:M:80010004 x5:80008000
case:Qemu:stvec_in_S bare before:S:80010000 word:80010000:105032f3
  after:S:80010004 x5:80008000
case:Qemu:sscratch_in_M bare before:M:80010000 word:80010000:140022f3 sscratch:51
  after:M:80010004 x5:51
case:Qemu:sscratch_in_S bare before:S:80010000 word:80010000:140032f3 sscratch:51
  after:S:80010004 x5:51
case:Qemu:sepc_in_M bare before:M:80010000 word:80010000:141022f3 sepc:80051000
  after:M:80010004 x5:80051000
case:Qemu:sepc_in_S bare before:S:80010000 word:80010000:141032f3 sepc:80051000
  after:S:80010004 x5:80051000
case:Qemu:scause_in_M bare before:M:80010000 word:80010000:142022f3 scause:53
  after:M:80010004 x5:53
case:Qemu:scause_in_S bare before:S:80010000 word:80010000:142032f3 scause:53
  after:S:80010004 x5:53
case:Qemu:stval_in_M bare before:M:80010000 word:80010000:143022f3 stval:54
  after:M:80010004 x5:54
case:Qemu:stval_in_S bare before:S:80010000 word:80010000:143032f3 stval:54
  after:S:80010004 x5:54
case:Qemu:satp_in_M bare before:M:80010000 word:80010000:180022f3
  after:M:80010004 x5:0
case:Qemu:satp_in_S bare before:S:80010000 word:80010000:180032f3
  after:S:80010004 x5:0
case:Qemu:satp_in_U bare before:U:80010000 word:80010000:180062f3
  after:M:80004000 trap:2:80010000:180062f3:M
case:Qemu:mstatus_in_M bare before:M:80010000 word:80010000:300022f3 mstatus:c09a0
  after:M:80010004 x5:a000c09a0
case:Qemu:mstatus_in_S bare before:S:80010000 word:80010000:300022f3
  after:M:80004000 mstatus:a00000800 trap:2:80010000:300022f3:M
case:Qemu:mstatus_in_U bare before:U:80010000 word:80010000:300062f3
  after:M:80004000 trap:2:80010000:300062f3:M
case:Qemu:medeleg_in_M bare before:M:80010000 word:80010000:302022f3 medeleg:b109
  after:M:80010004 x5:b109
case:Qemu:medeleg_in_S bare before:S:80010000 word:80010000:302022f3
  after:M:80004000 mstatus:a00000800 trap:2:80010000:302022f3:M
case:Qemu:mideleg_in_M bare before:M:80010000 word:80010000:303022f3
  after:M:80010004 x5:0
case:Qemu:mideleg_in_S bare before:S:80010000 word:80010000:303022f3
  after:M:80004000 mstatus:a00000800 trap:2:80010000:303022f3:M
case:Qemu:mie_in_M bare before:M:80010000 word:80010000:304022f3
  after:M:80010004 x5:0
case:Qemu:mie_in_S bare before:S:80010000 word:80010000:304022f3
  after:M:80004000 mstatus:a00000800 trap:2:80010000:304022f3:M
case:Qemu:mtvec_in_M bare before:M:80010000 word:80010000:305022f3
  after:M:80010004 x5:80004000
case:Qemu:mtvec_in_S bare before:S:80010000 word:80010000:305022f3
  after:M:80004000 mstatus:a00000800 trap:2:80010000:305022f3:M
case:Qemu:mscratch_in_M bare before:M:80010000 word:80010000:340022f3 mscratch:31
  after:M:80010004 x5:31
case:Qemu:mscratch_in_S bare before:S:80010000 word:80010000:340022f3
  after:M:80004000 mstatus:a00000800 trap:2:80010000:340022f3:M
case:Qemu:mepc_in_M bare before:M:80010000 word:80010000:341022f3 mepc:80031000
  after:M:80010004 x5:80031000
case:Qemu:mepc_in_S bare before:S:80010000 word:80010000:341022f3
  after:M:80004000 mstatus:a00000800 trap:2:80010000:341022f3:M
case:Qemu:mcause_in_M bare before:M:80010000 word:80010000:342022f3 mcause:33
  after:M:80010004 x5:33
case:Qemu:mcause_in_S bare before:S:80010000 word:80010000:342022f3
  after:M:80004000 mstatus:a00000800 trap:2:80010000:342022f3:M
case:Qemu:mtval_in_M bare before:M:80010000 word:80010000:343022f3 mtval:34
  after:M:80010004 x5:34
case:Qemu:mtval_in_S bare before:S:80010000 word:80010000:343022f3
  after:M:80004000 mstatus:a00000800 trap:2:80010000:343022f3:M
case:Profile:pmpcfg0_in_M bare before:M:80010000 word:80010000:3a0022f3
  after:M:80010004 x5:0
case:Qemu:pmpcfg0_in_S bare before:S:80010000 word:80010000:3a0022f3
  after:M:80004000 mstatus:a00000800 trap:2:80010000:3a0022f3:M
case:Profile:pmpaddr0_in_M bare before:M:80010000 word:80010000:3b0022f3
  after:M:80010004 x5:0
case:Qemu:pmpaddr0_in_S bare before:S:80010000 word:80010000:3b0022f3
  after:M:80004000 mstatus:a00000800 trap:2:80010000:3b0022f3:M
case:Qemu:mhartid_in_M bare before:M:80010000 word:80010000:f14022f3
  after:M:80010004 x5:0
case:Qemu:mhartid_in_S bare before:S:80010000 word:80010000:f14022f3
  after:M:80004000 mstatus:a00000800 trap:2:80010000:f14022f3:M
case:Qemu:mhartid_in_U bare before:U:80010000 word:80010000:f14062f3
  after:M:80004000 trap:2:80010000:f14062f3:M
case:Qemu:satp_in_S_with_TVM bare before:S:80010000 word:80010000:180022f3 mstatus:100000
  after:M:80004000 mstatus:a00100800 trap:2:80010000:180022f3:M
case:Qemu:satp_in_M_with_TVM bare before:M:80010000 word:80010000:180022f3 mstatus:100000
  after:M:80010004 x5:0
case:Qemu:stvec_in_S_with_TVM_TW_and_TSR bare before:S:80010000 word:80010000:105022f3
  mstatus:700000
  after:S:80010004 x5:80008000
case:Qemu:sstatus_in_S_with_TVM_TW_and_TSR bare before:S:80010000 word:80010000:100022f3
  mstatus:740000
  after:S:80010004 x5:200040000
case:Qemu:mstatus_with_all_bits bare before:M:80010000 word:80010000:300022f3 mstatus:7c19aa
  after:M:80010004 x5:a007c19aa
case:Qemu:satp_of_Sv39 bare before:M:80010000 word:80010000:180022f3 satp:8123400000080100
  after:M:80010004 x5:8123400000080100
case:Qemu:a_number_of_no_CSR bare before:M:80010000 word:80010000:5c0022f3
  after:M:80004000 mstatus:a00001800 trap:2:80010000:5c0022f3:M
case:Qemu:a_number_of_no_CSR_in_U bare before:U:80010000 word:80010000:ff022f3
  after:M:80004000 trap:2:80010000:ff022f3:M
case:Qemu:a_number_of_no_CSR_to_x0_and_from_x0 bare before:S:80010000 word:80010000:7ff02073
  after:M:80004000 mstatus:a00000800 trap:2:80010000:7ff02073:M
case:Profile:misa_which_isn't_there bare before:M:80010000 word:80010000:301022f3
  after:M:80004000 mstatus:a00001800 trap:2:80010000:301022f3:M
case:Profile:sie_which_isn't_there bare before:M:80010000 word:80010000:104022f3
  after:M:80004000 mstatus:a00001800 trap:2:80010000:104022f3:M
case:Profile:sip_which_isn't_there bare before:M:80010000 word:80010000:144022f3
  after:M:80004000 mstatus:a00001800 trap:2:80010000:144022f3:M
case:Profile:mip_which_isn't_there bare before:M:80010000 word:80010000:344022f3
  after:M:80004000 mstatus:a00001800 trap:2:80010000:344022f3:M
case:Profile:mcounteren_which_isn't_there bare before:M:80010000 word:80010000:306022f3
  after:M:80004000 mstatus:a00001800 trap:2:80010000:306022f3:M
case:Profile:menvcfg_which_isn't_there bare before:M:80010000 word:80010000:30a022f3
  after:M:80004000 mstatus:a00001800 trap:2:80010000:30a022f3:M
case:Profile:cycle_which_isn't_there bare before:M:80010000 word:80010000:c00022f3
  after:M:80004000 mstatus:a00001800 trap:2:80010000:c00022f3:M
case:Profile:mcycle_which_isn't_there bare before:M:80010000 word:80010000:b00022f3
  after:M:80004000 mstatus:a00001800 trap:2:80010000:b00022f3:M
case:Profile:mvendorid_which_isn't_there bare before:M:80010000 word:80010000:f11022f3
  after:M:80004000 mstatus:a00001800 trap:2:80010000:f11022f3:M
end:60";

pub const CSR_WRITES: &str = "
case:Qemu:csrrw_of_mscratch bare before:M:80010000 word:80010000:340512f3 x10:ff00 mscratch:f0f0
  after:M:80010004 x5:f0f0 mscratch:ff00
case:Qemu:csrrwi_of_mscratch bare before:M:80010000 word:80010000:340fd2f3 mscratch:f0f3
  after:M:80010004 x5:f0f3 mscratch:1f
case:Qemu:csrrw_of_mscratch_to_x0 bare before:M:80010000 word:80010000:34051073 x10:ff00
  mscratch:f0f0
  after:M:80010004 mscratch:ff00
case:Qemu:csrrw_of_mscratch_from_x0 bare before:M:80010000 word:80010000:340012f3 mscratch:f0f0
  after:M:80010004 x5:f0f0 mscratch:0
case:Qemu:csrrwi_of_mscratch_with_0 bare before:M:80010000 word:80010000:340052f3 mscratch:f0f0
  after:M:80010004 x5:f0f0 mscratch:0
case:Qemu:csrrwi_of_mscratch_to_x0 bare before:M:80010000 word:80010000:340ad073 mscratch:f0f0
  after:M:80010004 mscratch:15
case:Qemu:csrrs_of_mscratch bare before:M:80010000 word:80010000:340522f3 x10:ff00 mscratch:f0f0
  after:M:80010004 x5:f0f0 mscratch:fff0
case:Qemu:csrrsi_of_mscratch bare before:M:80010000 word:80010000:340fe2f3 mscratch:f0f3
  after:M:80010004 x5:f0f3 mscratch:f0ff
case:Qemu:csrrs_of_mscratch_to_x0 bare before:M:80010000 word:80010000:34052073 x10:ff00
  mscratch:f0f0
  after:M:80010004 mscratch:fff0
case:Qemu:csrrs_of_mscratch_from_x0 bare before:M:80010000 word:80010000:340022f3 mscratch:f0f0
  after:M:80010004 x5:f0f0
case:Qemu:csrrsi_of_mscratch_with_0 bare before:M:80010000 word:80010000:340062f3 mscratch:f0f0
  after:M:80010004 x5:f0f0
case:Qemu:csrrsi_of_mscratch_to_x0 bare before:M:80010000 word:80010000:340ae073 mscratch:f0f0
  after:M:80010004 mscratch:f0f5
case:Qemu:csrrc_of_mscratch bare before:M:80010000 word:80010000:340532f3 x10:ff00 mscratch:f0f0
  after:M:80010004 x5:f0f0 mscratch:f0
case:Qemu:csrrci_of_mscratch bare before:M:80010000 word:80010000:340ff2f3 mscratch:f0f3
  after:M:80010004 x5:f0f3 mscratch:f0e0
case:Qemu:csrrc_of_mscratch_to_x0 bare before:M:80010000 word:80010000:34053073 x10:ff00
  mscratch:f0f0
  after:M:80010004 mscratch:f0
case:Qemu:csrrc_of_mscratch_from_x0 bare before:M:80010000 word:80010000:340032f3 mscratch:f0f0
  after:M:80010004 x5:f0f0
case:Qemu:csrrci_of_mscratch_with_0 bare before:M:80010000 word:80010000:340072f3 mscratch:f0f0
  after:M:80010004 x5:f0f0
case:Qemu:csrrci_of_mscratch_to_x0 bare before:M:80010000 word:80010000:340af073 mscratch:f0f0
  after:M:80010004 mscratch:f0e0
case:Qemu:csrrw_of_sscratch bare before:S:80010000 word:80010000:140512f3 x10:ff00 sscratch:f0f0
  after:S:80010004 x5:f0f0 sscratch:ff00
case:Qemu:csrrwi_of_sscratch bare before:S:80010000 word:80010000:140fd2f3 sscratch:f0f3
  after:S:80010004 x5:f0f3 sscratch:1f
case:Qemu:csrrs_of_sscratch bare before:S:80010000 word:80010000:140522f3 x10:ff00 sscratch:f0f0
  after:S:80010004 x5:f0f0 sscratch:fff0
case:Qemu:csrrsi_of_sscratch bare before:S:80010000 word:80010000:140fe2f3 sscratch:f0f3
  after:S:80010004 x5:f0f3 sscratch:f0ff
case:Qemu:csrrc_of_sscratch bare before:S:80010000 word:80010000:140532f3 x10:ff00 sscratch:f0f0
  after:S:80010004 x5:f0f0 sscratch:f0
case:Qemu:csrrci_of_sscratch bare before:S:80010000 word:80010000:140ff2f3 sscratch:f0f3
  after:S:80010004 x5:f0f3 sscratch:f0e0
case:Qemu:csrrw_to_its_source bare before:M:80010000 word:80010000:34051573 x10:ffffffffffffffff
  mscratch:f0f0
  after:M:80010004 x10:f0f0 mscratch:ffffffffffffffff
case:Qemu:csrrs_to_its_source bare before:M:80010000 word:80010000:34052573 x10:ffffffff00000000
  mscratch:f0f0
  after:M:80010004 x10:f0f0 mscratch:ffffffff0000f0f0
case:Qemu:csrrwi_of_sscratch_in_M bare before:M:80010000 word:80010000:1402d2f3
  after:M:80010004 x5:0 sscratch:5
case:Qemu:csrrw_of_mscratch_in_S bare before:S:80010000 word:80010000:340512f3
  after:M:80004000 mstatus:a00000800 trap:2:80010000:340512f3:M
case:Qemu:csrrw_of_sscratch_in_U bare before:U:80010000 word:80010000:140512f3
  after:M:80004000 trap:2:80010000:140512f3:M
case:Qemu:csrrw_of_mhartid bare before:M:80010000 word:80010000:f14512f3
  after:M:80004000 mstatus:a00001800 trap:2:80010000:f14512f3:M
case:Qemu:csrrs_of_mscratch_in_S bare before:S:80010000 word:80010000:340522f3
  after:M:80004000 mstatus:a00000800 trap:2:80010000:340522f3:M
case:Qemu:csrrs_of_sscratch_in_U bare before:U:80010000 word:80010000:140522f3
  after:M:80004000 trap:2:80010000:140522f3:M
case:Qemu:csrrs_of_mhartid bare before:M:80010000 word:80010000:f14522f3
  after:M:80004000 mstatus:a00001800 trap:2:80010000:f14522f3:M
case:Qemu:csrrci_of_mscratch_in_S bare before:S:80010000 word:80010000:3401f2f3
  after:M:80004000 mstatus:a00000800 trap:2:80010000:3401f2f3:M
case:Qemu:csrrci_of_sscratch_in_U bare before:U:80010000 word:80010000:1401f2f3
  after:M:80004000 trap:2:80010000:1401f2f3:M
case:Qemu:csrrci_of_mhartid bare before:M:80010000 word:80010000:f141f2f3
  after:M:80004000 mstatus:a00001800 trap:2:80010000:f141f2f3:M
case:Qemu:csrrw_of_mhartid_from_x0 bare before:M:80010000 word:80010000:f14012f3
  after:M:80004000 mstatus:a00001800 trap:2:80010000:f14012f3:M
case:Qemu:csrrw_of_mhartid_to_x0 bare before:M:80010000 word:80010000:f1401073
  after:M:80004000 mstatus:a00001800 trap:2:80010000:f1401073:M
case:Qemu:csrrwi_of_mhartid_with_0 bare before:M:80010000 word:80010000:f1405073
  after:M:80004000 mstatus:a00001800 trap:2:80010000:f1405073:M
case:Profile:csrrs_of_mhartid_from_a_register_that_holds_0 bare before:M:80010000
  word:80010000:f14522f3 x10:0
  after:M:80004000 mstatus:a00001800 trap:2:80010000:f14522f3:M
case:Qemu:csrrci_of_mhartid_with_0 bare before:M:80010000 word:80010000:f14072f3
  after:M:80010004 x5:0
case:Qemu:csrrw_of_sscratch_in_M bare before:M:80010000 word:80010000:140512f3 x10:8123456789abcdec
  after:M:80010004 x5:0 sscratch:8123456789abcdec
case:Qemu:csrrw_of_sscratch_in_S bare before:S:80010000 word:80010000:140512f3 x10:8123456789abcdec
  after:S:80010004 x5:0 sscratch:8123456789abcdec
case:Qemu:csrrw_of_sepc_in_M bare before:M:80010000 word:80010000:141512f3 x10:8123456789abcdec
  after:M:80010004 x5:0 sepc:8123456789abcdec
case:Qemu:csrrw_of_sepc_in_S bare before:S:80010000 word:80010000:141512f3 x10:8123456789abcdec
  after:S:80010004 x5:0 sepc:8123456789abcdec
case:Qemu:csrrw_of_scause_in_M bare before:M:80010000 word:80010000:142512f3 x10:8123456789abcdec
  after:M:80010004 x5:0 scause:8123456789abcdec
case:Qemu:csrrw_of_scause_in_S bare before:S:80010000 word:80010000:142512f3 x10:8123456789abcdec
  after:S:80010004 x5:0 scause:8123456789abcdec
case:Qemu:csrrw_of_stval_in_M bare before:M:80010000 word:80010000:143512f3 x10:8123456789abcdec
  after:M:80010004 x5:0 stval:8123456789abcdec
case:Qemu:csrrw_of_stval_in_S bare before:S:80010000 word:80010000:143512f3 x10:8123456789abcdec
  after:S:80010004 x5:0 stval:8123456789abcdec
case:Qemu:csrrw_of_satp_in_M bare before:M:80010000 word:80010000:180512f3 x10:8ffff00000000abc
  after:M:80010004 x5:0 satp:8ffff00000000abc
case:Qemu:csrrw_of_satp_in_S bare before:S:80010000 word:80010000:180512f3 x10:8ffff00000000abc
  after:S:80010004 x5:0 satp:8ffff00000000abc
case:Qemu:csrrw_of_mscratch_in_M bare before:M:80010000 word:80010000:340512f3 x10:8123456789abcdec
  after:M:80010004 x5:0 mscratch:8123456789abcdec
case:Qemu:csrrw_of_mepc_in_M bare before:M:80010000 word:80010000:341512f3 x10:8123456789abcdec
  after:M:80010004 x5:0 mepc:8123456789abcdec
case:Qemu:csrrw_of_mcause_in_M bare before:M:80010000 word:80010000:342512f3 x10:8123456789abcdec
  after:M:80010004 x5:0 mcause:8123456789abcdec
case:Qemu:csrrw_of_mtval_in_M bare before:M:80010000 word:80010000:343512f3 x10:8123456789abcdec
  after:M:80010004 x5:0 mtval:8123456789abcdec
case:Qemu:csrrw_of_stvec_in_M bare before:M:80010000 word:80010000:105512f3 x10:8123456789abcdec
  after:M:80010004 x5:80008000 stvec:8123456789abcdec
case:Qemu:csrrw_of_stvec_in_S bare before:S:80010000 word:80010000:105512f3 x10:8123456789abcdec
  after:S:80010004 x5:80008000 stvec:8123456789abcdec
case:Qemu:csrrw_of_mtvec_in_M bare before:M:80010000 word:80010000:305512f3 x10:8123456789abcdec
  after:M:80010004 x5:80004000 mtvec:8123456789abcdec
case:Profile:csrrw_of_stvec_with_low_bits_3 bare before:M:80010000 word:80010000:105512f3
  x10:80060003
  after:M:80010004 x5:80008000 stvec:80060000
case:Profile:csrrw_of_mtvec_with_low_bits_1 bare before:M:80010000 word:80010000:305512f3
  x10:80060001
  after:M:80010004 x5:80004000 mtvec:80060000
case:Profile:csrrw_of_mtvec_with_low_bits_2 bare before:M:80010000 word:80010000:305512f3
  x10:80060002
  after:M:80010004 x5:80004000 mtvec:80060000
case:Profile:csrrw_of_sepc_with_low_bits_3 bare before:M:80010000 word:80010000:141512f3
  x10:80060003
  after:M:80010004 x5:0 sepc:80060000
case:Profile:csrrw_of_mepc_with_low_bits_3 bare before:M:80010000 word:80010000:341512f3
  x10:80060003
  after:M:80010004 x5:0 mepc:80060000
case:Profile:csrrs_of_mepc_with_low_bits bare before:M:80010000 word:80010000:3413e2f3 mepc:10
  after:M:80010004 x5:10 mepc:14
case:Qemu:satp_in_S_with_TVM_written bare before:S:80010000 word:80010000:180512f3
  x10:8000000000080100 mstatus:100000
  after:M:80004000 mstatus:a00100800 trap:2:80010000:180512f3:M
case:Qemu:satp_in_S_with_TVM_written_to_x0 bare before:S:80010000 word:80010000:18051073
  x10:8000000000080100 mstatus:100000
  after:M:80004000 mstatus:a00100800 trap:2:80010000:18051073:M
case:Qemu:satp_in_S_with_TVM_bits_cleared bare before:S:80010000 word:80010000:1801f073 satp:7
  mstatus:100000
  after:M:80004000 mstatus:a00100800 trap:2:80010000:1801f073:M
case:Qemu:satp_in_M_with_TVM_written bare before:M:80010000 word:80010000:180512f3
  x10:8000000000080100 mstatus:100000
  after:M:80010004 x5:0 satp:8000000000080100
case:Qemu:satp_to_no_translation_all_other_bits bare before:M:80010000 word:80010000:180512f3
  x10:fffffffffffffff satp:8000000000080100
  after:M:80010004 x5:8000000000080100 satp:fffffffffffffff
case:Qemu:satp_all_other_bits_of_Sv39 bare before:S:80010000 word:80010000:180512f3
  x10:8fffffffffffffff
  after:S:80010004 x5:0 satp:8fffffffffffffff
case:Qemu:satp_with_mode_1 bare before:M:80010000 word:80010000:180512f3 x10:1000000000080200 satp:5
  after:M:80010004 x5:5
case:Profile:satp_with_mode_9 bare before:M:80010000 word:80010000:180512f3 x10:9000000000080200
  satp:5
  after:M:80010004 x5:5
case:Profile:satp_with_mode_10 bare before:M:80010000 word:80010000:180512f3 x10:a000000000080200
  satp:5
  after:M:80010004 x5:5
case:Qemu:satp_with_mode_15 bare before:M:80010000 word:80010000:180512f3 x10:f000000000080200
  satp:5
  after:M:80010004 x5:5
case:Qemu:satp_set_by_bits_to_Sv39 bare before:S:80010000 word:80010000:180522f3
  x10:8000000000000000 satp:80100
  after:S:80010004 x5:80100 satp:8000000000080100
case:Qemu:mstatus.SIE_set bare before:M:80010000 word:80010000:300522f3 x10:2
  after:M:80010004 x5:a00000000 mstatus:a00000002
case:Qemu:mstatus.MIE_set bare before:M:80010000 word:80010000:300522f3 x10:8
  after:M:80010004 x5:a00000000 mstatus:a00000008
case:Qemu:mstatus.SPIE_set bare before:M:80010000 word:80010000:300522f3 x10:20
  after:M:80010004 x5:a00000000 mstatus:a00000020
case:Qemu:mstatus.MPIE_set bare before:M:80010000 word:80010000:300522f3 x10:80
  after:M:80010004 x5:a00000000 mstatus:a00000080
case:Qemu:mstatus.SPP_set bare before:M:80010000 word:80010000:300522f3 x10:100
  after:M:80010004 x5:a00000000 mstatus:a00000100
case:Qemu:mstatus.MPRV_set bare before:M:80010000 word:80010000:300522f3 x10:20000
  after:M:80010004 x5:a00000000 mstatus:a00020000
case:Qemu:mstatus.SUM_set bare before:M:80010000 word:80010000:300522f3 x10:40000
  after:M:80010004 x5:a00000000 mstatus:a00040000
case:Qemu:mstatus.MXR_set bare before:M:80010000 word:80010000:300522f3 x10:80000
  after:M:80010004 x5:a00000000 mstatus:a00080000
case:Qemu:mstatus.TVM_set bare before:M:80010000 word:80010000:300522f3 x10:100000
  after:M:80010004 x5:a00000000 mstatus:a00100000
case:Qemu:mstatus.TW_set bare before:M:80010000 word:80010000:300522f3 x10:200000
  after:M:80010004 x5:a00000000 mstatus:a00200000
case:Qemu:mstatus.TSR_set bare before:M:80010000 word:80010000:300522f3 x10:400000
  after:M:80010004 x5:a00000000 mstatus:a00400000
case:Qemu:mstatus.MPP_set_to_S bare before:M:80010000 word:80010000:300512f3 x10:800 mstatus:1800
  after:M:80010004 x5:a00001800 mstatus:a00000800
case:Qemu:mstatus.MPP_set_to_U bare before:M:80010000 word:80010000:300512f3 x10:0 mstatus:1800
  after:M:80010004 x5:a00001800 mstatus:a00000000
case:Qemu:mstatus.MPP_set_to_M bare before:M:80010000 word:80010000:300512f3 x10:1800 mstatus:800
  after:M:80010004 x5:a00000800 mstatus:a00001800
case:Qemu:mstatus_all_bits_cleared bare before:M:80010000 word:80010000:300532f3
  x10:ffffffffffffffff mstatus:7c19aa
  after:M:80010004 x5:a007c19aa mstatus:a00000000
case:Qemu:mstatus_all_bits_set bare before:M:80010000 word:80010000:300512f3 x10:ffffffffffffffff
  after:M:80010004 x5:a00000000 mstatus:a007e19aa
case:Profile:mstatus.MPP_of_0_set_to_2 bare before:M:80010000 word:80010000:300512f3 x10:1080
  mstatus:0
  after:M:80010004 x5:a00000000 mstatus:a00000080
case:Profile:mstatus.MPP_of_1_set_to_2 bare before:M:80010000 word:80010000:300512f3 x10:1080
  mstatus:800
  after:M:80010004 x5:a00000800 mstatus:a00000880
case:Profile:mstatus.MPP_of_3_set_to_2 bare before:M:80010000 word:80010000:300512f3 x10:1080
  mstatus:1800
  after:M:80010004 x5:a00001800 mstatus:a00001880
case:Qemu:sstatus_all_bits_set_in_S bare before:S:80010000 word:80010000:100512f3
  x10:ffffffffffffffff mstatus:200000
  after:S:80010004 x5:200000000 mstatus:a002c0122
case:Qemu:sstatus_all_bits_set_in_M bare before:M:80010000 word:80010000:100522f3
  x10:ffffffffffffffff mstatus:1880
  after:M:80010004 x5:200000000 mstatus:a000c19a2
case:Qemu:sstatus_all_bits_cleared_in_S bare before:S:80010000 word:80010000:100012f3 mstatus:7c19aa
  after:S:80010004 x5:2000c0122 mstatus:a00701888
case:Qemu:sstatus.SUM_set_in_S bare before:S:80010000 word:80010000:100522f3 x10:40000
  after:S:80010004 x5:200000000 mstatus:a00040000
case:Qemu:sstatus.SPP_cleared_in_S bare before:S:80010000 word:80010000:100532f3 x10:100 mstatus:120
  after:S:80010004 x5:200000120 mstatus:a00000020
case:Qemu:sstatus.SIE_set_in_S_by_an_immediate bare before:S:80010000 word:80010000:100162f3
  after:S:80010004 x5:200000000 mstatus:a00000002
case:Qemu:sstatus.MPP_left_by_a_write_in_M bare before:M:80010000 word:80010000:100512f3 x10:2
  mstatus:808
  after:M:80010004 x5:200000000 mstatus:a0000080a
case:Qemu:medeleg_all_bits_set bare before:M:80010000 word:80010000:302512f3 x10:ffffffffffffffff
  after:M:80010004 x5:0 medeleg:b3ff
case:Qemu:medeleg_causes_8_and_9 bare before:M:80010000 word:80010000:302522f3 x10:300 medeleg:1
  after:M:80010004 x5:1 medeleg:301
case:Qemu:medeleg_causes_10_and_11 bare before:M:80010000 word:80010000:302512f3 x10:c00 medeleg:1
  after:M:80010004 x5:1 medeleg:0
case:Qemu:medeleg_bits_cleared bare before:M:80010000 word:80010000:3028f2f3 medeleg:b3ff
  after:M:80010004 x5:b3ff medeleg:b3ee
case:Profile:mideleg_all_bits_set bare before:M:80010000 word:80010000:303512f3 x10:ffffffffffffffff
  after:M:80010004 x5:0
case:Qemu:mideleg_bits_set_in_S bare before:S:80010000 word:80010000:303522f3 x10:ffffffffffffffff
  after:M:80004000 mstatus:a00000800 trap:2:80010000:303522f3:M
case:Profile:mie_all_bits_set bare before:M:80010000 word:80010000:304512f3 x10:ffffffffffffffff
  after:M:80010004 x5:0
case:Qemu:mie_bits_set_in_S bare before:S:80010000 word:80010000:304522f3 x10:ffffffffffffffff
  after:M:80004000 mstatus:a00000800 trap:2:80010000:304522f3:M
case:Profile:pmpcfg0_all_bits_set bare before:M:80010000 word:80010000:3a0512f3 x10:ffffffffffffffff
  after:M:80010004 x5:0
case:Qemu:pmpcfg0_bits_set_in_S bare before:S:80010000 word:80010000:3a0522f3 x10:ffffffffffffffff
  after:M:80004000 mstatus:a00000800 trap:2:80010000:3a0522f3:M
case:Profile:pmpaddr0_all_bits_set bare before:M:80010000 word:80010000:3b0512f3
  x10:ffffffffffffffff
  after:M:80010004 x5:0
case:Qemu:pmpaddr0_bits_set_in_S bare before:S:80010000 word:80010000:3b0522f3 x10:ffffffffffffffff
  after:M:80004000 mstatus:a00000800 trap:2:80010000:3b0522f3:M
case:Profile:misa_which_isn't_there_written bare before:M:80010000 word:80010000:30151073 x10:0
  after:M:80004000 mstatus:a00001800 trap:2:80010000:30151073:M
case:Profile:sie_which_isn't_there_written bare before:M:80010000 word:80010000:10451073 x10:0
  after:M:80004000 mstatus:a00001800 trap:2:80010000:10451073:M
case:Profile:mip_which_isn't_there_written bare before:M:80010000 word:80010000:34451073 x10:0
  after:M:80004000 mstatus:a00001800 trap:2:80010000:34451073:M
case:Qemu:satp's_neighbour_which_isn't_there_written bare before:M:80010000 word:80010000:18151073
  x10:0
  after:M:80004000 mstatus:a00001800 trap:2:80010000:18151073:M
end:117";

pub const TRAPS: &str = "
case:Qemu:ecall_in_U_kept_with_MIE_and_SIE bare before:U:80010000 word:80010000:73 mstatus:a
  medeleg:0
  after:M:80004000 mstatus:a00000082 trap:8:80010000:0:M
case:Qemu:ecall_in_U_kept_with_MPIE_SPIE_SPP_and_MPP bare before:U:80010000 word:80010000:73
  mstatus:9a0 medeleg:0
  after:M:80004000 mstatus:a00000120 trap:8:80010000:0:M
case:Qemu:ecall_in_U_delegated_with_MIE_and_SIE bare before:U:80010000 word:80010000:73 mstatus:a
  medeleg:b3ff
  after:S:80008000 mstatus:a00000028 trap:8:80010000:0:S
case:Qemu:ecall_in_U_delegated_with_MPIE_SPIE_SPP_and_MPP bare before:U:80010000 word:80010000:73
  mstatus:9a0 medeleg:b3ff
  after:S:80008000 mstatus:a00000880 trap:8:80010000:0:S
case:Profile:ebreak_in_U_kept bare before:U:80010000 word:80010000:100073 medeleg:0
  after:M:80004000 trap:3:80010000:80010000:M
case:Profile:ebreak_in_U_delegated bare before:U:80010000 word:80010000:100073 medeleg:8
  after:S:80008000 trap:3:80010000:80010000:S
case:Qemu:a_word_of_zeros_in_U_kept bare before:U:80010000 word:80010000:0 stval:5 medeleg:0 mtval:6
  after:M:80004000 trap:2:80010000:0:M
case:Profile:a_jump_to_a_half_word_in_U_kept bare before:U:80010000 word:80010000:2002ef medeleg:0
  after:M:80004000 trap:0:80010000:80010002:M
case:Qemu:ld_behind_RAM_in_U_kept bare before:U:80010000 word:80010000:53283 x10:90000000 medeleg:0
  after:M:80004000 trap:5:80010000:90000000:M
case:Qemu:sd_behind_RAM_in_U_kept bare before:U:80010000 word:80010000:b53023 x10:90000000 x11:1
  medeleg:0
  after:M:80004000 trap:7:80010000:90000000:M
case:Qemu:misaligned_lr.w_in_U_kept bare before:U:80010000 word:80010000:100522af x10:80020002
  medeleg:0
  after:M:80004000 trap:4:80010000:80020002:M
case:Qemu:misaligned_amoadd.w_in_U_kept bare before:U:80010000 word:80010000:b522af x10:80020002
  x11:1 medeleg:0
  after:M:80004000 trap:6:80010000:80020002:M
case:Qemu:a_word_of_zeros_in_U_delegated bare before:U:80010000 word:80010000:0 stval:5 medeleg:4
  mtval:6
  after:S:80008000 trap:2:80010000:0:S
case:Profile:a_jump_to_a_half_word_in_U_delegated bare before:U:80010000 word:80010000:2002ef
  medeleg:1
  after:S:80008000 trap:0:80010000:80010002:S
case:Qemu:ld_behind_RAM_in_U_delegated bare before:U:80010000 word:80010000:53283 x10:90000000
  medeleg:20
  after:S:80008000 trap:5:80010000:90000000:S
case:Qemu:sd_behind_RAM_in_U_delegated bare before:U:80010000 word:80010000:b53023 x10:90000000
  x11:1 medeleg:80
  after:S:80008000 trap:7:80010000:90000000:S
case:Qemu:misaligned_lr.w_in_U_delegated bare before:U:80010000 word:80010000:100522af x10:80020002
  medeleg:10
  after:S:80008000 trap:4:80010000:80020002:S
case:Qemu:misaligned_amoadd.w_in_U_delegated bare before:U:80010000 word:80010000:b522af
  x10:80020002 x11:1 medeleg:40
  after:S:80008000 trap:6:80010000:80020002:S
case:Qemu:a_fetch_behind_RAM_in_U_kept bare before:U:90000000
  after:M:80004000 unfetched trap:1:90000000:90000000:M
case:Qemu:a_fetch_behind_RAM_in_U_delegated bare before:U:90000000 medeleg:2
  after:S:80008000 unfetched trap:1:90000000:90000000:S
case:Qemu:ecall_in_S_kept_with_MIE_and_SIE bare before:S:80010000 word:80010000:73 mstatus:a
  medeleg:0
  after:M:80004000 mstatus:a00000882 trap:9:80010000:0:M
case:Qemu:ecall_in_S_kept_with_MPIE_SPIE_SPP_and_MPP bare before:S:80010000 word:80010000:73
  mstatus:9a0 medeleg:0
  after:M:80004000 mstatus:a00000920 trap:9:80010000:0:M
case:Qemu:ecall_in_S_delegated_with_MIE_and_SIE bare before:S:80010000 word:80010000:73 mstatus:a
  medeleg:b3ff
  after:S:80008000 mstatus:a00000128 trap:9:80010000:0:S
case:Qemu:ecall_in_S_delegated_with_MPIE_SPIE_SPP_and_MPP bare before:S:80010000 word:80010000:73
  mstatus:9a0 medeleg:b3ff
  after:S:80008000 mstatus:a00000980 trap:9:80010000:0:S
case:Profile:ebreak_in_S_kept bare before:S:80010000 word:80010000:100073 medeleg:0
  after:M:80004000 mstatus:a00000800 trap:3:80010000:80010000:M
case:Profile:ebreak_in_S_delegated bare before:S:80010000 word:80010000:100073 medeleg:8
  after:S:80008000 mstatus:a00000100 trap:3:80010000:80010000:S
case:Qemu:a_word_of_zeros_in_S_kept bare before:S:80010000 word:80010000:0 stval:5 medeleg:0 mtval:6
  after:M:80004000 mstatus:a00000800 trap:2:80010000:0:M
case:Profile:a_jump_to_a_half_word_in_S_kept bare before:S:80010000 word:80010000:2002ef medeleg:0
  after:M:80004000 mstatus:a00000800 trap:0:80010000:80010002:M
case:Qemu:ld_behind_RAM_in_S_kept bare before:S:80010000 word:80010000:53283 x10:90000000 medeleg:0
  after:M:80004000 mstatus:a00000800 trap:5:80010000:90000000:M
case:Qemu:sd_behind_RAM_in_S_kept bare before:S:80010000 word:80010000:b53023 x10:90000000 x11:1
  medeleg:0
  after:M:80004000 mstatus:a00000800 trap:7:80010000:90000000:M
case:Qemu:misaligned_lr.w_in_S_kept bare before:S:80010000 word:80010000:100522af x10:80020002
  medeleg:0
  after:M:80004000 mstatus:a00000800 trap:4:80010000:80020002:M
case:Qemu:misaligned_amoadd.w_in_S_kept bare before:S:80010000 word:80010000:b522af x10:80020002
  x11:1 medeleg:0
  after:M:80004000 mstatus:a00000800 trap:6:80010000:80020002:M
case:Qemu:a_word_of_zeros_in_S_delegated bare before:S:80010000 word:80010000:0 stval:5 medeleg:4
  mtval:6
  after:S:80008000 mstatus:a00000100 trap:2:80010000:0:S
case:Profile:a_jump_to_a_half_word_in_S_delegated bare before:S:80010000 word:80010000:2002ef
  medeleg:1
  after:S:80008000 mstatus:a00000100 trap:0:80010000:80010002:S
case:Qemu:ld_behind_RAM_in_S_delegated bare before:S:80010000 word:80010000:53283 x10:90000000
  medeleg:20
  after:S:80008000 mstatus:a00000100 trap:5:80010000:90000000:S
case:Qemu:sd_behind_RAM_in_S_delegated bare before:S:80010000 word:80010000:b53023 x10:90000000
  x11:1 medeleg:80
  after:S:80008000 mstatus:a00000100 trap:7:80010000:90000000:S
case:Qemu:misaligned_lr.w_in_S_delegated bare before:S:80010000 word:80010000:100522af x10:80020002
  medeleg:10
  after:S:80008000 mstatus:a00000100 trap:4:80010000:80020002:S
case:Qemu:misaligned_amoadd.w_in_S_delegated bare before:S:80010000 word:80010000:b522af
  x10:80020002 x11:1 medeleg:40
  after:S:80008000 mstatus:a00000100 trap:6:80010000:80020002:S
case:Qemu:a_fetch_behind_RAM_in_S_kept bare before:S:90000000
  after:M:80004000 unfetched mstatus:a00000800 trap:1:90000000:90000000:M
case:Qemu:a_fetch_behind_RAM_in_S_delegated bare before:S:90000000 medeleg:2
  after:S:80008000 unfetched mstatus:a00000100 trap:1:90000000:90000000:S
case:Qemu:ecall_in_M_kept_with_MIE_and_SIE bare before:M:80010000 word:80010000:73 mstatus:a
  medeleg:0
  after:M:80004000 mstatus:a00001882 trap:11:80010000:0:M
case:Qemu:ecall_in_M_kept_with_MPIE_SPIE_SPP_and_MPP bare before:M:80010000 word:80010000:73
  mstatus:9a0 medeleg:0
  after:M:80004000 mstatus:a00001920 trap:11:80010000:0:M
case:Qemu:ecall_in_M_delegated_with_MIE_and_SIE bare before:M:80010000 word:80010000:73 mstatus:a
  medeleg:b3ff
  after:M:80004000 mstatus:a00001882 trap:11:80010000:0:M
case:Qemu:ecall_in_M_delegated_with_MPIE_SPIE_SPP_and_MPP bare before:M:80010000 word:80010000:73
  mstatus:9a0 medeleg:b3ff
  after:M:80004000 mstatus:a00001920 trap:11:80010000:0:M
case:Profile:ebreak_in_M_kept bare before:M:80010000 word:80010000:100073 medeleg:0
  after:M:80004000 mstatus:a00001800 trap:3:80010000:80010000:M
case:Profile:ebreak_in_M_delegated bare before:M:80010000 word:80010000:100073 medeleg:8
  after:M:80004000 mstatus:a00001800 trap:3:80010000:80010000:M
case:Qemu:a_word_of_zeros_in_M_kept bare before:M:80010000 word:80010000:0 stval:5 medeleg:0 mtval:6
  after:M:80004000 mstatus:a00001800 trap:2:80010000:0:M
case:Profile:a_jump_to_a_half_word_in_M_kept bare before:M:80010000 word:80010000:2002ef medeleg:0
  after:M:80004000 mstatus:a00001800 trap:0:80010000:80010002:M
case:Qemu:ld_behind_RAM_in_M_kept bare before:M:80010000 word:80010000:53283 x10:90000000 medeleg:0
  after:M:80004000 mstatus:a00001800 trap:5:80010000:90000000:M
case:Qemu:sd_behind_RAM_in_M_kept bare before:M:80010000 word:80010000:b53023 x10:90000000 x11:1
  medeleg:0
  after:M:80004000 mstatus:a00001800 trap:7:80010000:90000000:M
case:Qemu:misaligned_lr.w_in_M_kept bare before:M:80010000 word:80010000:100522af x10:80020002
  medeleg:0
  after:M:80004000 mstatus:a00001800 trap:4:80010000:80020002:M
case:Qemu:misaligned_amoadd.w_in_M_kept bare before:M:80010000 word:80010000:b522af x10:80020002
  x11:1 medeleg:0
  after:M:80004000 mstatus:a00001800 trap:6:80010000:80020002:M
case:Qemu:a_fetch_behind_RAM_in_M_kept bare before:M:90000000
  after:M:80004000 unfetched mstatus:a00001800 trap:1:90000000:90000000:M
case:Qemu:a_fetch_behind_RAM_in_M_delegated bare before:M:90000000 medeleg:2
  after:M:80004000 unfetched mstatus:a00001800 trap:1:90000000:90000000:M
case:Profile:cause_0_kept_where_all_others_are_delegated bare before:U:80010000 word:80010000:2002ef
  medeleg:b3fe
  after:M:80004000 trap:0:80010000:80010002:M
case:Qemu:cause_1_kept_where_all_others_are_delegated bare before:U:90000000 medeleg:b3fd
  after:M:80004000 unfetched trap:1:90000000:90000000:M
case:Qemu:cause_2_kept_where_all_others_are_delegated bare before:U:80010000 word:80010000:0
  medeleg:b3fb
  after:M:80004000 trap:2:80010000:0:M
case:Profile:cause_3_kept_where_all_others_are_delegated bare before:U:80010000 word:80010000:100073
  medeleg:b3f7
  after:M:80004000 trap:3:80010000:80010000:M
case:Qemu:cause_8_kept_where_all_others_are_delegated bare before:U:80010000 word:80010000:73
  medeleg:b2ff
  after:M:80004000 trap:8:80010000:0:M
case:Qemu:cause_9_kept_where_all_others_are_delegated bare before:S:80010000 word:80010000:73
  medeleg:b1ff
  after:M:80004000 mstatus:a00000800 trap:9:80010000:0:M
case:Qemu:the_word_ffffffff bare before:M:80010000 word:80010000:ffffffff
  after:M:80004000 mstatus:a00001800 trap:2:80010000:ffffffff:M
case:Qemu:the_word_1 bare before:M:80010000 word:80010000:1
  after:M:80004000 mstatus:a00001800 trap:2:80010000:1:M
case:Qemu:the_word_7003 bare before:M:80010000 word:80010000:7003
  after:M:80004000 mstatus:a00001800 trap:2:80010000:7003:M
case:Qemu:the_word_4023 bare before:M:80010000 word:80010000:4023
  after:M:80004000 mstatus:a00001800 trap:2:80010000:4023:M
case:Qemu:the_word_2063 bare before:M:80010000 word:80010000:2063
  after:M:80004000 mstatus:a00001800 trap:2:80010000:2063:M
case:Qemu:the_word_40001013 bare before:M:80010000 word:80010000:40001013
  after:M:80004000 mstatus:a00001800 trap:2:80010000:40001013:M
case:Qemu:the_word_fe000033 bare before:M:80010000 word:80010000:fe000033
  after:M:80004000 mstatus:a00001800 trap:2:80010000:fe000033:M
case:Qemu:the_word_1010202f bare before:M:80010000 word:80010000:1010202f
  after:M:80004000 mstatus:a00001800 trap:2:80010000:1010202f:M
case:Qemu:the_word_2f bare before:M:80010000 word:80010000:2f
  after:M:80004000 mstatus:a00001800 trap:2:80010000:2f:M
case:Qemu:the_word_4073 bare before:M:80010000 word:80010000:4073
  after:M:80004000 mstatus:a00001800 trap:2:80010000:4073:M
case:Qemu:the_word_f3 bare before:M:80010000 word:80010000:f3
  after:M:80004000 mstatus:a00001800 trap:2:80010000:f3:M
case:Qemu:the_word_102000f3 bare before:M:80010000 word:80010000:102000f3
  after:M:80004000 mstatus:a00001800 trap:2:80010000:102000f3:M
case:Qemu:the_word_30208073 bare before:M:80010000 word:80010000:30208073
  after:M:80004000 mstatus:a00001800 trap:2:80010000:30208073:M
case:Qemu:the_word_120000f3 bare before:M:80010000 word:80010000:120000f3
  after:M:80004000 mstatus:a00001800 trap:2:80010000:120000f3:M
case:Qemu:the_word_200101b bare before:M:80010000 word:80010000:200101b
  after:M:80004000 mstatus:a00001800 trap:2:80010000:200101b:M
case:Qemu:wfi_which_isn't_there_in_U bare before:U:80010000 word:80010000:10500073
  after:M:80004000 trap:2:80010000:10500073:M
case:Qemu:wfi_which_isn't_there_in_S bare before:S:80010000 word:80010000:10500073 mstatus:200000
  after:M:80004000 mstatus:a00200800 trap:2:80010000:10500073:M
case:Qemu:fence.i_which_isn't_there bare before:M:80010000 word:80010000:100f
  after:M:80004000 mstatus:a00001800 trap:2:80010000:100f:M
case:Qemu:a_trap_in_S_with_the_other_mode's_state bare before:S:80010000 word:80010000:73
  mstatus:19a8 medeleg:200 mepc:40 mcause:5 mtval:7
  after:S:80008000 mstatus:a00001988 trap:9:80010000:0:S
case:Qemu:a_trap_in_U_to_M_with_S's_state bare before:U:80010000 word:80010000:73 sepc:40 scause:5
  stval:7 mstatus:182 mtval:9
  after:M:80004000 mstatus:a00000102 trap:8:80010000:0:M
case:Qemu:a_trap_leaves_MPRV_SUM_MXR_TVM_TW_and_TSR bare before:M:80010000 word:80010000:73
  mstatus:7e0800
  after:M:80004000 mstatus:a007e1800 trap:11:80010000:0:M
case:Qemu:an_illegal_word_in_S_with_all_else_set bare before:S:80010000 word:80010000:0
  mstatus:7c0002 medeleg:4
  after:S:80008000 mstatus:a007c0120 trap:2:80010000:0:S
end:82";

pub const RETURNS: &str = "
case:Qemu:mret_to_U_with_8 bare before:M:80010000 word:80010000:30200073 mstatus:8 mepc:80030000
  after:U:80030000 mstatus:a00000080
case:Qemu:mret_to_U_with_80 bare before:M:80010000 word:80010000:30200073 mstatus:80 mepc:80030000
  after:U:80030000 mstatus:a00000088
case:Profile:mret_to_U_with_20000 bare before:M:80010000 word:80010000:30200073 mstatus:20000
  mepc:80030000
  after:U:80030000 mstatus:a00000080
case:Profile:mret_to_U_with_7e01a2 bare before:M:80010000 word:80010000:30200073 mstatus:7e01a2
  mepc:80030000
  after:U:80030000 mstatus:a007c01aa
case:Qemu:mret_to_S_with_8 bare before:M:80010000 word:80010000:30200073 mstatus:808 mepc:80030000
  after:S:80030000 mstatus:a00000080
case:Qemu:mret_to_S_with_80 bare before:M:80010000 word:80010000:30200073 mstatus:880 mepc:80030000
  after:S:80030000 mstatus:a00000088
case:Profile:mret_to_S_with_20000 bare before:M:80010000 word:80010000:30200073 mstatus:20800
  mepc:80030000
  after:S:80030000 mstatus:a00000080
case:Profile:mret_to_S_with_7e01a2 bare before:M:80010000 word:80010000:30200073 mstatus:7e09a2
  mepc:80030000
  after:S:80030000 mstatus:a007c01aa
case:Qemu:mret_to_M_with_8 bare before:M:80010000 word:80010000:30200073 mstatus:1808 mepc:80030000
  after:M:80030000 mstatus:a00000080
case:Qemu:mret_to_M_with_80 bare before:M:80010000 word:80010000:30200073 mstatus:1880 mepc:80030000
  after:M:80030000 mstatus:a00000088
case:Qemu:mret_to_M_with_20000 bare before:M:80010000 word:80010000:30200073 mstatus:21800
  mepc:80030000
  after:M:80030000 mstatus:a00020080
case:Qemu:mret_to_M_with_7e01a2 bare before:M:80010000 word:80010000:30200073 mstatus:7e19a2
  mepc:80030000
  after:M:80030000 mstatus:a007e01aa
case:Qemu:sret_to_U_in_S_with_2 bare before:S:80010000 word:80010000:10200073 sepc:80030000
  mstatus:2
  after:U:80030000 mstatus:a00000020
case:Qemu:sret_to_U_in_S_with_20 bare before:S:80010000 word:80010000:10200073 sepc:80030000
  mstatus:20
  after:U:80030000 mstatus:a00000022
case:Qemu:sret_to_U_in_S_with_3c1888 bare before:S:80010000 word:80010000:10200073 sepc:80030000
  mstatus:3c1888
  after:U:80030000 mstatus:a003c18a8
case:Profile:sret_to_U_in_S_with_MPRV bare before:S:80010000 word:80010000:10200073 sepc:80030000
  mstatus:21800
  after:U:80030000 mstatus:a00001820
case:Qemu:sret_to_S_in_S_with_2 bare before:S:80010000 word:80010000:10200073 sepc:80030000
  mstatus:102
  after:S:80030000 mstatus:a00000020
case:Qemu:sret_to_S_in_S_with_20 bare before:S:80010000 word:80010000:10200073 sepc:80030000
  mstatus:120
  after:S:80030000 mstatus:a00000022
case:Qemu:sret_to_S_in_S_with_3c1888 bare before:S:80010000 word:80010000:10200073 sepc:80030000
  mstatus:3c1988
  after:S:80030000 mstatus:a003c18a8
case:Profile:sret_to_S_in_S_with_MPRV bare before:S:80010000 word:80010000:10200073 sepc:80030000
  mstatus:21900
  after:S:80030000 mstatus:a00001820
case:Qemu:sret_to_U_in_M_with_2 bare before:M:80010000 word:80010000:10200073 sepc:80030000
  mstatus:2
  after:U:80030000 mstatus:a00000020
case:Qemu:sret_to_U_in_M_with_20 bare before:M:80010000 word:80010000:10200073 sepc:80030000
  mstatus:20
  after:U:80030000 mstatus:a00000022
case:Qemu:sret_to_U_in_M_with_3c1888 bare before:M:80010000 word:80010000:10200073 sepc:80030000
  mstatus:3c1888
  after:U:80030000 mstatus:a003c18a8
case:Profile:sret_to_U_in_M_with_MPRV bare before:M:80010000 word:80010000:10200073 sepc:80030000
  mstatus:21800
  after:U:80030000 mstatus:a00001820
case:Qemu:sret_to_S_in_M_with_2 bare before:M:80010000 word:80010000:10200073 sepc:80030000
  mstatus:102
  after:S:80030000 mstatus:a00000020
case:Qemu:sret_to_S_in_M_with_20 bare before:M:80010000 word:80010000:10200073 sepc:80030000
  mstatus:120
  after:S:80030000 mstatus:a00000022
case:Qemu:sret_to_S_in_M_with_3c1888 bare before:M:80010000 word:80010000:10200073 sepc:80030000
  mstatus:3c1988
  after:S:80030000 mstatus:a003c18a8
case:Profile:sret_to_S_in_M_with_MPRV bare before:M:80010000 word:80010000:10200073 sepc:80030000
  mstatus:21900
  after:S:80030000 mstatus:a00001820
case:Qemu:sret_in_M_with_TSR bare before:M:80010000 word:80010000:10200073 sepc:80030000
  mstatus:400100
  after:S:80030000 mstatus:a00400020
case:Qemu:sret_in_S_with_TSR bare before:S:80010000 word:80010000:10200073 sepc:80030000
  mstatus:400100
  after:M:80004000 mstatus:a00400900 trap:2:80010000:10200073:M
case:Qemu:sret_in_S_with_TSR_delegated bare before:S:80010000 word:80010000:10200073 mstatus:400020
  medeleg:4
  after:S:80008000 mstatus:a00400100 trap:2:80010000:10200073:S
case:Qemu:sret_in_U bare before:U:80010000 word:80010000:10200073 mstatus:100
  after:M:80004000 trap:2:80010000:10200073:M
case:Qemu:sret_in_U_with_TSR bare before:U:80010000 word:80010000:10200073 mstatus:400000
  after:M:80004000 trap:2:80010000:10200073:M
case:Qemu:mret_in_S bare before:S:80010000 word:80010000:30200073 mstatus:1800 mepc:80030000
  after:M:80004000 mstatus:a00000800 trap:2:80010000:30200073:M
case:Qemu:mret_in_S_delegated bare before:S:80010000 word:80010000:30200073 mstatus:1800 medeleg:4
  after:S:80008000 mstatus:a00001900 trap:2:80010000:30200073:S
case:Qemu:mret_in_U bare before:U:80010000 word:80010000:30200073 mstatus:1800
  after:M:80004000 mstatus:a00000000 trap:2:80010000:30200073:M
case:Qemu:mret_outside_RAM bare before:M:80010000 word:80010000:30200073 mepc:90000000
  after:U:90000000 mstatus:a00000080
case:Qemu:sret_to_a_virtual_address paged before:S:40011000 word:80010000:10200073 sepc:40010040
  after:U:40010040 mstatus:a00000020
end:38";

pub const FENCES: &str = "
case:Qemu:sfence.vma_x0_x0_in_U bare before:U:80010000 word:80010000:12000073 x10:80020000 x11:3
  mstatus:0
  after:M:80004000 trap:2:80010000:12000073:M
case:Qemu:sfence.vma_x10_x11_in_U bare before:U:80010000 word:80010000:12b50073 x10:80020000 x11:3
  mstatus:0
  after:M:80004000 trap:2:80010000:12b50073:M
case:Qemu:sfence.vma_x0_x0_in_U_with_TVM bare before:U:80010000 word:80010000:12000073 x10:80020000
  x11:3 mstatus:100000
  after:M:80004000 trap:2:80010000:12000073:M
case:Qemu:sfence.vma_x10_x11_in_U_with_TVM bare before:U:80010000 word:80010000:12b50073
  x10:80020000 x11:3 mstatus:100000
  after:M:80004000 trap:2:80010000:12b50073:M
case:Qemu:sfence.vma_x0_x0_in_S bare before:S:80010000 word:80010000:12000073 x10:80020000 x11:3
  mstatus:0
  after:S:80010004
case:Qemu:sfence.vma_x10_x11_in_S bare before:S:80010000 word:80010000:12b50073 x10:80020000 x11:3
  mstatus:0
  after:S:80010004
case:Qemu:sfence.vma_x0_x0_in_S_with_TVM bare before:S:80010000 word:80010000:12000073 x10:80020000
  x11:3 mstatus:100000
  after:M:80004000 mstatus:a00100800 trap:2:80010000:12000073:M
case:Qemu:sfence.vma_x10_x11_in_S_with_TVM bare before:S:80010000 word:80010000:12b50073
  x10:80020000 x11:3 mstatus:100000
  after:M:80004000 mstatus:a00100800 trap:2:80010000:12b50073:M
case:Qemu:sfence.vma_x0_x0_in_M bare before:M:80010000 word:80010000:12000073 x10:80020000 x11:3
  mstatus:0
  after:M:80010004
case:Qemu:sfence.vma_x10_x11_in_M bare before:M:80010000 word:80010000:12b50073 x10:80020000 x11:3
  mstatus:0
  after:M:80010004
case:Qemu:sfence.vma_x0_x0_in_M_with_TVM bare before:M:80010000 word:80010000:12000073 x10:80020000
  x11:3 mstatus:100000
  after:M:80010004
case:Qemu:sfence.vma_x10_x11_in_M_with_TVM bare before:M:80010000 word:80010000:12b50073
  x10:80020000 x11:3 mstatus:100000
  after:M:80010004
case:Qemu:sfence.vma_in_S_over_tables paged before:S:40011000 word:80010000:12050073 x10:40020000
  after:S:40011004
case:Qemu:sfence.vma_in_S_with_TSR_and_TW bare before:S:80010000 word:80010000:12000073
  mstatus:600000
  after:S:80010004
case:Qemu:fence_in_U bare before:U:80010000 word:80010000:310000f
  after:U:80010004
case:Qemu:fence_in_S bare before:S:80010000 word:80010000:310000f
  after:S:80010004
case:Qemu:fence_in_M bare before:M:80010000 word:80010000:310000f
  after:M:80010004
case:Qemu:fence_of_all bare before:M:80010000 word:80010000:ff0000f
  after:M:80010004
case:Qemu:fence.tso bare before:M:80010000 word:80010000:8330000f
  after:M:80010004
case:Qemu:fence_with_fields_that_are_kept_for_later bare before:M:80010000 word:80010000:7ff50f8f
  x10:5
  after:M:80010004
end:20";

pub const PAGES: &str = "
case:Qemu:ld_in_U paged before:U:40010000 word:80010000:53283 x10:40020008
  at:80020008:8877665544332211
  after:U:40010004 x5:8877665544332211 load:8:40020008:80020008 read:8877665544332211
    entry:80100008:20040401 entry:80101000:20040801 entry:80102100:200080d7
case:Qemu:ld_in_S paged before:S:40011000 word:80010000:53283 x10:40021008
  at:80020008:8877665544332211
  after:S:40011004 x5:8877665544332211 load:8:40021008:80020008 read:8877665544332211
    entry:80100008:20040401 entry:80101000:20040801 entry:80102108:200080c7
case:Qemu:sd_in_U paged before:U:40010000 word:80010000:b53023 x10:40020008 x11:1
  at:80020008:8877665544332211
  after:U:40010004 at:80020008:1 store:8:40020008:80020008 wrote:1 entry:80100008:20040401
    entry:80101000:20040801 entry:80102100:200080d7
case:Qemu:sb_in_S paged before:S:40011000 word:80010000:b50023 x10:4002100f x11:1
  at:80020008:8877665544332211
  after:S:40011004 at:80020008:177665544332211 store:1:4002100f:8002000f wrote:1
    entry:80100008:20040401 entry:80101000:20040801 entry:80102108:200080c7
case:Qemu:amoadd.w_in_U paged before:U:40010000 word:80010000:b522af x10:4002000c x11:1
  at:80020008:8877665544332211
  after:U:40010004 x5:ffffffff88776655 at:80020008:8877665644332211
    amo:4:4002000c:8002000c read:88776655 wrote:88776656 entry:80100008:20040401
    entry:80101000:20040801 entry:80102100:200080d7
case:Qemu:amomaxu.d_in_S paged before:S:40011000 word:80010000:e0b532af x10:40021008
  x11:ffffffffffffffff at:80020008:8877665544332211
  after:S:40011004 x5:8877665544332211 at:80020008:ffffffffffffffff
    amo:8:40021008:80020008 read:8877665544332211 wrote:ffffffffffffffff entry:80100008:20040401
    entry:80101000:20040801 entry:80102108:200080c7
case:Qemu:ld_in_M_isn't_translated paged before:M:80010000 word:80010000:53283 x10:80020008
  at:80020008:8877665544332211
  after:M:80010004 x5:8877665544332211 load:8:80020008:80020008 read:8877665544332211
case:Qemu:ld_in_M_of_a_virtual_address paged before:M:80010000 word:80010000:53283 x10:100040020000
  after:M:80004000 mstatus:a00001800 trap:5:80010000:100040020000:M
case:Qemu:the_last_byte_of_a_page paged before:U:40010000 word:80010000:54283 x10:40020fff
  at:80020ff8:8877665544332211
  after:U:40010004 x5:88 load:1:40020fff:80020fff read:88 entry:80100008:20040401
    entry:80101000:20040801 entry:80102100:200080d7
case:Qemu:ld_in_U_of_a_page_of_2_MiB paged before:U:40010000 word:80010000:53283 x10:40723458
  at:80101018:201000d7 at:80523458:8877665544332211
  after:U:40010004 x5:8877665544332211 load:8:40723458:80523458 read:8877665544332211
    entry:80100008:20040401 entry:80101018:201000d7
case:Qemu:sw_in_U_of_a_page_of_2_MiB paged before:U:40010000 word:80010000:b52023 x10:40723458 x11:1
  at:80101018:201000d7 at:80523458:8877665544332211
  after:U:40010004 at:80523458:8877665500000001 store:4:40723458:80523458 wrote:1
    entry:80100008:20040401 entry:80101018:201000d7
case:Qemu:ld_in_S_of_a_page_of_2_MiB paged before:S:40011000 word:80010000:53283 x10:40723458
  at:80101018:201000c7 at:80523458:8877665544332211
  after:S:40011004 x5:8877665544332211 load:8:40723458:80523458 read:8877665544332211
    entry:80100008:20040401 entry:80101018:201000c7
case:Qemu:sw_in_S_of_a_page_of_2_MiB paged before:S:40011000 word:80010000:b52023 x10:40723458 x11:1
  at:80101018:201000c7 at:80523458:8877665544332211
  after:S:40011004 at:80523458:8877665500000001 store:4:40723458:80523458 wrote:1
    entry:80100008:20040401 entry:80101018:201000c7
case:Qemu:ld_of_a_misaligned_page_of_2_MiB paged before:U:40010000 word:80010000:53283 x10:40600000
  at:80101018:201004d7
  after:M:80004000 entry:80100008:20040401 entry:80101018:201004d7 trap:13:40010000:40600000:M
case:Qemu:sd_of_a_misaligned_page_of_2_MiB paged before:U:40010000 word:80010000:b53023 x10:40600000
  x11:1 at:80101018:201004d7
  after:M:80004000 entry:80100008:20040401 entry:80101018:201004d7 trap:15:40010000:40600000:M
case:Qemu:lw_of_a_page_of_2_MiB_misaligned_by_its_highest_bit paged before:U:40010000
  word:80010000:52283 x10:40600000 at:80101018:201400d7
  after:M:80004000 entry:80100008:20040401 entry:80101018:201400d7 trap:13:40010000:40600000:M
case:Profile:sd_of_a_page_of_2_MiB_with_D_=_0 paged before:U:40010000 word:80010000:b53023
  x10:40600000 x11:1 at:80101018:20100057
  after:M:80004000 entry:80100008:20040401 entry:80101018:20100057 trap:15:40010000:40600000:M
case:Qemu:ld_in_U_of_a_page_of_1_GiB paged before:U:40010000 word:80010000:53283 x10:85123458
  at:80100010:200000d7 at:85123458:8877665544332211
  after:U:40010004 x5:8877665544332211 load:8:85123458:85123458 read:8877665544332211
    entry:80100010:200000d7
case:Qemu:sw_in_U_of_a_page_of_1_GiB paged before:U:40010000 word:80010000:b52023 x10:85123458 x11:1
  at:80100010:200000d7 at:85123458:8877665544332211
  after:U:40010004 at:85123458:8877665500000001 store:4:85123458:85123458 wrote:1
    entry:80100010:200000d7
case:Qemu:ld_in_S_of_a_page_of_1_GiB paged before:S:40011000 word:80010000:53283 x10:85123458
  at:80100010:200000c7 at:85123458:8877665544332211
  after:S:40011004 x5:8877665544332211 load:8:85123458:85123458 read:8877665544332211
    entry:80100010:200000c7
case:Qemu:sw_in_S_of_a_page_of_1_GiB paged before:S:40011000 word:80010000:b52023 x10:85123458 x11:1
  at:80100010:200000c7 at:85123458:8877665544332211
  after:S:40011004 at:85123458:8877665500000001 store:4:85123458:85123458 wrote:1
    entry:80100010:200000c7
case:Qemu:ld_of_a_misaligned_page_of_1_GiB paged before:U:40010000 word:80010000:53283 x10:80000000
  at:80100010:200800d7
  after:M:80004000 entry:80100010:200800d7 trap:13:40010000:80000000:M
case:Qemu:sd_of_a_misaligned_page_of_1_GiB paged before:U:40010000 word:80010000:b53023 x10:80000000
  x11:1 at:80100010:200800d7
  after:M:80004000 entry:80100010:200800d7 trap:15:40010000:80000000:M
case:Qemu:lw_of_a_page_of_1_GiB_misaligned_by_its_highest_bit paged before:U:40010000
  word:80010000:52283 x10:80000000 at:80100010:280000d7
  after:M:80004000 entry:80100010:280000d7 trap:13:40010000:80000000:M
case:Profile:sd_of_a_page_of_1_GiB_with_D_=_0 paged before:U:40010000 word:80010000:b53023
  x10:80000000 x11:1 at:80100010:20000057
  after:M:80004000 entry:80100010:20000057 trap:15:40010000:80000000:M
case:Qemu:ld_of_the_negative_half paged before:U:40010000 word:80010000:53283 x10:ffffffc040020008
  at:80020008:8877665544332211 at:80100808:20040401
  after:U:40010004 x5:8877665544332211 load:8:ffffffc040020008:80020008 read:8877665544332211
    entry:80100808:20040401 entry:80101000:20040801 entry:80102100:200080d7
case:Qemu:ld_of_the_greatest_address paged before:S:40011000 word:80010000:53283
  x10:fffffffffffffff8 at:80020ff8:8877665544332211 at:80100ff8:20040401 at:80101ff8:20040801
  at:80102ff8:20008043
  after:S:40011004 x5:8877665544332211 load:8:fffffffffffffff8:80020ff8 read:8877665544332211
    entry:80100ff8:20040401 entry:80101ff8:20040801 entry:80102ff8:20008043
case:Qemu:ld_with_bit_38_alone_set paged before:U:40010000 word:80010000:53283 x10:4040020000
  after:M:80004000 trap:13:40010000:4040020000:M
case:Qemu:sd_with_bit_38_alone_set paged before:S:40011000 word:80010000:b53023 x10:4040020000 x11:1
  after:M:80004000 mstatus:a00000800 trap:15:40011000:4040020000:M
case:Qemu:ld_with_bit_39_alone_set paged before:U:40010000 word:80010000:53283 x10:8040020000
  after:M:80004000 trap:13:40010000:8040020000:M
case:Qemu:sd_with_bit_39_alone_set paged before:S:40011000 word:80010000:b53023 x10:8040020000 x11:1
  after:M:80004000 mstatus:a00000800 trap:15:40011000:8040020000:M
case:Qemu:ld_with_bit_63_alone_set paged before:U:40010000 word:80010000:53283 x10:8000000040020000
  after:M:80004000 trap:13:40010000:8000000040020000:M
case:Qemu:sd_with_bit_63_alone_set paged before:S:40011000 word:80010000:b53023 x10:8000000040020000
  x11:1
  after:M:80004000 mstatus:a00000800 trap:15:40011000:8000000040020000:M
case:Qemu:ld_with_bit_38_alone_clear paged before:U:40010000 word:80010000:53283
  x10:ffffff8040020000
  after:M:80004000 trap:13:40010000:ffffff8040020000:M
case:Qemu:sd_with_bit_38_alone_clear paged before:S:40011000 word:80010000:b53023
  x10:ffffff8040020000 x11:1
  after:M:80004000 mstatus:a00000800 trap:15:40011000:ffffff8040020000:M
case:Qemu:amoor.w_with_bit_62_alone_clear paged before:S:40011000 word:80010000:40b522af
  x10:bffffffffffffff8 x11:1
  after:M:80004000 mstatus:a00000800 trap:15:40011000:bffffffffffffff8:M
case:Profile:misaligned_ld_with_bit_39_alone_set paged before:U:40010000 word:80010000:53283
  x10:8040020001
  after:M:80004000 trap:4:40010000:8040020001:M
case:Qemu:ld_V_=_0 paged before:U:40010000 word:80010000:53283 x10:40030000 at:80102180:200080d6
  after:M:80004000 entry:80100008:20040401 entry:80101000:20040801 entry:80102180:200080d6
    trap:13:40010000:40030000:M
case:Qemu:sd_V_=_0 paged before:U:40010000 word:80010000:b53023 x10:40030000 x11:1
  at:80102180:200080d6
  after:M:80004000 entry:80100008:20040401 entry:80101000:20040801 entry:80102180:200080d6
    trap:15:40010000:40030000:M
case:Qemu:amoadd.d_V_=_0 paged before:U:40010000 word:80010000:b532af x10:40030000 x11:1
  at:80102180:200080d6
  after:M:80004000 entry:80100008:20040401 entry:80101000:20040801 entry:80102180:200080d6
    trap:15:40010000:40030000:M
case:Qemu:lr.d_V_=_0 paged before:U:40010000 word:80010000:100532af x10:40030000
  at:80102180:200080d6
  after:M:80004000 entry:80100008:20040401 entry:80101000:20040801 entry:80102180:200080d6
    trap:13:40010000:40030000:M
case:Qemu:ld_no_entry paged before:U:40010000 word:80010000:53283 x10:40030000 at:80102180:0
  after:M:80004000 entry:80100008:20040401 entry:80101000:20040801 entry:80102180:0
    trap:13:40010000:40030000:M
case:Qemu:sd_no_entry paged before:U:40010000 word:80010000:b53023 x10:40030000 x11:1 at:80102180:0
  after:M:80004000 entry:80100008:20040401 entry:80101000:20040801 entry:80102180:0
    trap:15:40010000:40030000:M
case:Qemu:ld_W_without_R paged before:U:40010000 word:80010000:53283 x10:40030000
  at:80102180:200080d5
  after:M:80004000 entry:80100008:20040401 entry:80101000:20040801 entry:80102180:200080d5
    trap:13:40010000:40030000:M
case:Qemu:sd_W_without_R paged before:U:40010000 word:80010000:b53023 x10:40030000 x11:1
  at:80102180:200080d5
  after:M:80004000 entry:80100008:20040401 entry:80101000:20040801 entry:80102180:200080d5
    trap:15:40010000:40030000:M
case:Qemu:ld_W_and_X_without_R paged before:U:40010000 word:80010000:53283 x10:40030000
  at:80102180:200080dd
  after:M:80004000 entry:80100008:20040401 entry:80101000:20040801 entry:80102180:200080dd
    trap:13:40010000:40030000:M
case:Qemu:sd_W_and_X_without_R paged before:U:40010000 word:80010000:b53023 x10:40030000 x11:1
  at:80102180:200080dd
  after:M:80004000 entry:80100008:20040401 entry:80101000:20040801 entry:80102180:200080dd
    trap:15:40010000:40030000:M
case:Qemu:ld_bit_54_set_in_a_leaf paged before:U:40010000 word:80010000:53283 x10:40030000
  at:80102180:400000200080d7
  after:M:80004000 entry:80100008:20040401 entry:80101000:20040801 entry:80102180:400000200080d7
    trap:13:40010000:40030000:M
case:Qemu:sd_bit_54_set_in_a_leaf paged before:U:40010000 word:80010000:b53023 x10:40030000 x11:1
  at:80102180:400000200080d7
  after:M:80004000 entry:80100008:20040401 entry:80101000:20040801 entry:80102180:400000200080d7
    trap:15:40010000:40030000:M
case:Qemu:ld_bit_60_set_in_a_leaf paged before:U:40010000 word:80010000:53283 x10:40030000
  at:80102180:10000000200080d7
  after:M:80004000 entry:80100008:20040401 entry:80101000:20040801 entry:80102180:10000000200080d7
    trap:13:40010000:40030000:M
case:Qemu:sd_bit_60_set_in_a_leaf paged before:U:40010000 word:80010000:b53023 x10:40030000 x11:1
  at:80102180:10000000200080d7
  after:M:80004000 entry:80100008:20040401 entry:80101000:20040801 entry:80102180:10000000200080d7
    trap:15:40010000:40030000:M
case:Qemu:ld_bit_63_set_in_a_leaf paged before:U:40010000 word:80010000:53283 x10:40030000
  at:80102180:80000000200080d7
  after:M:80004000 entry:80100008:20040401 entry:80101000:20040801 entry:80102180:80000000200080d7
    trap:13:40010000:40030000:M
case:Qemu:sd_bit_63_set_in_a_leaf paged before:U:40010000 word:80010000:b53023 x10:40030000 x11:1
  at:80102180:80000000200080d7
  after:M:80004000 entry:80100008:20040401 entry:80101000:20040801 entry:80102180:80000000200080d7
    trap:15:40010000:40030000:M
case:Qemu:ld_bit_63_set_in_a_pointer paged before:U:40010000 word:80010000:53283 x10:c0020000
  at:80103000:8000000020040801
  after:M:80004000 entry:80100018:20040c01 entry:80103000:8000000020040801
    trap:13:40010000:c0020000:M
case:Qemu:sd_bit_63_set_in_a_pointer paged before:U:40010000 word:80010000:b53023 x10:c0020000 x11:1
  at:80103000:8000000020040801
  after:M:80004000 entry:80100018:20040c01 entry:80103000:8000000020040801
    trap:15:40010000:c0020000:M
case:Qemu:ld_bit_54_set_in_a_pointer paged before:U:40010000 word:80010000:53283 x10:c0020000
  at:80100018:40000020040c01
  after:M:80004000 entry:80100018:40000020040c01 trap:13:40010000:c0020000:M
case:Qemu:sd_bit_54_set_in_a_pointer paged before:U:40010000 word:80010000:b53023 x10:c0020000 x11:1
  at:80100018:40000020040c01
  after:M:80004000 entry:80100018:40000020040c01 trap:15:40010000:c0020000:M
case:Qemu:ld_A_set_in_a_pointer paged before:U:40010000 word:80010000:53283 x10:c0020000
  at:80103000:20040841
  after:M:80004000 entry:80100018:20040c01 entry:80103000:20040841 trap:13:40010000:c0020000:M
case:Qemu:sd_A_set_in_a_pointer paged before:U:40010000 word:80010000:b53023 x10:c0020000 x11:1
  at:80103000:20040841
  after:M:80004000 entry:80100018:20040c01 entry:80103000:20040841 trap:15:40010000:c0020000:M
case:Qemu:ld_A_set_in_the_root's_pointer paged before:U:40010000 word:80010000:53283 x10:c0020000
  at:80100018:20040c41
  after:M:80004000 entry:80100018:20040c41 trap:13:40010000:c0020000:M
case:Qemu:ld_D_set_in_a_pointer paged before:U:40010000 word:80010000:53283 x10:c0020000
  at:80103000:20040881
  after:M:80004000 entry:80100018:20040c01 entry:80103000:20040881 trap:13:40010000:c0020000:M
case:Qemu:sd_D_set_in_a_pointer paged before:U:40010000 word:80010000:b53023 x10:c0020000 x11:1
  at:80103000:20040881
  after:M:80004000 entry:80100018:20040c01 entry:80103000:20040881 trap:15:40010000:c0020000:M
case:Qemu:ld_D_set_in_the_root's_pointer paged before:U:40010000 word:80010000:53283 x10:c0020000
  at:80100018:20040c81
  after:M:80004000 entry:80100018:20040c81 trap:13:40010000:c0020000:M
case:Qemu:ld_U_set_in_a_pointer paged before:U:40010000 word:80010000:53283 x10:c0020000
  at:80103000:20040811
  after:M:80004000 entry:80100018:20040c01 entry:80103000:20040811 trap:13:40010000:c0020000:M
case:Qemu:sd_U_set_in_a_pointer paged before:U:40010000 word:80010000:b53023 x10:c0020000 x11:1
  at:80103000:20040811
  after:M:80004000 entry:80100018:20040c01 entry:80103000:20040811 trap:15:40010000:c0020000:M
case:Qemu:ld_U_set_in_the_root's_pointer paged before:U:40010000 word:80010000:53283 x10:c0020000
  at:80100018:20040c11
  after:M:80004000 entry:80100018:20040c11 trap:13:40010000:c0020000:M
case:Qemu:ld_V_=_0_in_a_pointer paged before:U:40010000 word:80010000:53283 x10:c0020000
  at:80103000:20040800
  after:M:80004000 entry:80100018:20040c01 entry:80103000:20040800 trap:13:40010000:c0020000:M
case:Qemu:sd_V_=_0_in_a_pointer paged before:U:40010000 word:80010000:b53023 x10:c0020000 x11:1
  at:80103000:20040800
  after:M:80004000 entry:80100018:20040c01 entry:80103000:20040800 trap:15:40010000:c0020000:M
case:Qemu:ld_V_=_0_in_the_root paged before:U:40010000 word:80010000:53283 x10:c0020000
  at:80100018:0
  after:M:80004000 entry:80100018:0 trap:13:40010000:c0020000:M
case:Qemu:sd_V_=_0_in_the_root paged before:U:40010000 word:80010000:b53023 x10:c0020000 x11:1
  at:80100018:0
  after:M:80004000 entry:80100018:0 trap:15:40010000:c0020000:M
case:Qemu:ld_W_without_R_in_the_root paged before:U:40010000 word:80010000:53283 x10:c0020000
  at:80100018:20040c05
  after:M:80004000 entry:80100018:20040c05 trap:13:40010000:c0020000:M
case:Qemu:ld_a_pointer_at_the_last_level paged before:U:40010000 word:80010000:53283 x10:40030000
  at:80102180:20040801
  after:M:80004000 entry:80100008:20040401 entry:80101000:20040801 entry:80102180:20040801
    trap:13:40010000:40030000:M
case:Qemu:sd_a_pointer_at_the_last_level paged before:U:40010000 word:80010000:b53023 x10:40030000
  x11:1 at:80102180:20040801
  after:M:80004000 entry:80100008:20040401 entry:80101000:20040801 entry:80102180:20040801
    trap:15:40010000:40030000:M
case:Qemu:sd_W_lacking paged before:U:40010000 word:80010000:b53023 x10:40030000 x11:1
  at:80102180:200080d3
  after:M:80004000 entry:80100008:20040401 entry:80101000:20040801 entry:80102180:200080d3
    trap:15:40010000:40030000:M
case:Qemu:amoadd.d_W_lacking paged before:U:40010000 word:80010000:b532af x10:40030000 x11:1
  at:80102180:200080d3
  after:M:80004000 entry:80100008:20040401 entry:80101000:20040801 entry:80102180:200080d3
    trap:15:40010000:40030000:M
case:Qemu:ld_R_lacking paged before:U:40010000 word:80010000:53283 x10:40030000 at:80102180:200080d9
  after:M:80004000 entry:80100008:20040401 entry:80101000:20040801 entry:80102180:200080d9
    trap:13:40010000:40030000:M
case:Qemu:sd_R_lacking paged before:U:40010000 word:80010000:b53023 x10:40030000 x11:1
  at:80102180:200080d9
  after:M:80004000 entry:80100008:20040401 entry:80101000:20040801 entry:80102180:200080d9
    trap:15:40010000:40030000:M
case:Qemu:amoadd.d_R_lacking paged before:U:40010000 word:80010000:b532af x10:40030000 x11:1
  at:80102180:200080d9
  after:M:80004000 entry:80100008:20040401 entry:80101000:20040801 entry:80102180:200080d9
    trap:15:40010000:40030000:M
case:Qemu:lr.d_R_lacking paged before:U:40010000 word:80010000:100532af x10:40030000
  at:80102180:200080d9
  after:M:80004000 entry:80100008:20040401 entry:80101000:20040801 entry:80102180:200080d9
    trap:13:40010000:40030000:M
case:Qemu:ld_no_page_of_U paged before:U:40010000 word:80010000:53283 x10:40030000
  at:80102180:200080c7
  after:M:80004000 entry:80100008:20040401 entry:80101000:20040801 entry:80102180:200080c7
    trap:13:40010000:40030000:M
case:Qemu:sd_no_page_of_U paged before:U:40010000 word:80010000:b53023 x10:40030000 x11:1
  at:80102180:200080c7
  after:M:80004000 entry:80100008:20040401 entry:80101000:20040801 entry:80102180:200080c7
    trap:15:40010000:40030000:M
case:Qemu:amoadd.d_no_page_of_U paged before:U:40010000 word:80010000:b532af x10:40030000 x11:1
  at:80102180:200080c7
  after:M:80004000 entry:80100008:20040401 entry:80101000:20040801 entry:80102180:200080c7
    trap:15:40010000:40030000:M
case:Qemu:lr.d_no_page_of_U paged before:U:40010000 word:80010000:100532af x10:40030000
  at:80102180:200080c7
  after:M:80004000 entry:80100008:20040401 entry:80101000:20040801 entry:80102180:200080c7
    trap:13:40010000:40030000:M
case:Qemu:ld_a_page_of_U_in_S paged before:S:40011000 word:80010000:53283 x10:40030000
  at:80102180:200080d7
  after:M:80004000 mstatus:a00000800 entry:80100008:20040401 entry:80101000:20040801
    entry:80102180:200080d7 trap:13:40011000:40030000:M
case:Qemu:sd_a_page_of_U_in_S paged before:S:40011000 word:80010000:b53023 x10:40030000 x11:1
  at:80102180:200080d7
  after:M:80004000 mstatus:a00000800 entry:80100008:20040401 entry:80101000:20040801
    entry:80102180:200080d7 trap:15:40011000:40030000:M
case:Qemu:amoadd.d_a_page_of_U_in_S paged before:S:40011000 word:80010000:b532af x10:40030000 x11:1
  at:80102180:200080d7
  after:M:80004000 mstatus:a00000800 entry:80100008:20040401 entry:80101000:20040801
    entry:80102180:200080d7 trap:15:40011000:40030000:M
case:Qemu:lr.d_a_page_of_U_in_S paged before:S:40011000 word:80010000:100532af x10:40030000
  at:80102180:200080d7
  after:M:80004000 mstatus:a00000800 entry:80100008:20040401 entry:80101000:20040801
    entry:80102180:200080d7 trap:13:40011000:40030000:M
case:Qemu:ld_a_page_of_U_in_S_with_MXR paged before:S:40011000 word:80010000:53283 x10:40030000
  mstatus:80000 at:80102180:200080d7
  after:M:80004000 mstatus:a00080800 entry:80100008:20040401 entry:80101000:20040801
    entry:80102180:200080d7 trap:13:40011000:40030000:M
case:Qemu:sd_a_page_of_U_in_S_with_MXR paged before:S:40011000 word:80010000:b53023 x10:40030000
  x11:1 mstatus:80000 at:80102180:200080d7
  after:M:80004000 mstatus:a00080800 entry:80100008:20040401 entry:80101000:20040801
    entry:80102180:200080d7 trap:15:40011000:40030000:M
case:Profile:ld_A_=_0 paged before:U:40010000 word:80010000:53283 x10:40030000 at:80102180:20008097
  after:M:80004000 entry:80100008:20040401 entry:80101000:20040801 entry:80102180:20008097
    trap:13:40010000:40030000:M
case:Profile:sd_A_=_0 paged before:U:40010000 word:80010000:b53023 x10:40030000 x11:1
  at:80102180:20008097
  after:M:80004000 entry:80100008:20040401 entry:80101000:20040801 entry:80102180:20008097
    trap:15:40010000:40030000:M
case:Profile:amoadd.d_A_=_0 paged before:U:40010000 word:80010000:b532af x10:40030000 x11:1
  at:80102180:20008097
  after:M:80004000 entry:80100008:20040401 entry:80101000:20040801 entry:80102180:20008097
    trap:15:40010000:40030000:M
case:Profile:lr.d_A_=_0 paged before:U:40010000 word:80010000:100532af x10:40030000
  at:80102180:20008097
  after:M:80004000 entry:80100008:20040401 entry:80101000:20040801 entry:80102180:20008097
    trap:13:40010000:40030000:M
case:Profile:ld_A_=_0_in_S paged before:S:40011000 word:80010000:53283 x10:40030000
  at:80102180:20008087
  after:M:80004000 mstatus:a00000800 entry:80100008:20040401 entry:80101000:20040801
    entry:80102180:20008087 trap:13:40011000:40030000:M
case:Profile:sd_A_=_0_in_S paged before:S:40011000 word:80010000:b53023 x10:40030000 x11:1
  at:80102180:20008087
  after:M:80004000 mstatus:a00000800 entry:80100008:20040401 entry:80101000:20040801
    entry:80102180:20008087 trap:15:40011000:40030000:M
case:Profile:ld_A_=_0_and_D_=_0 paged before:U:40010000 word:80010000:53283 x10:40030000
  at:80102180:20008017
  after:M:80004000 entry:80100008:20040401 entry:80101000:20040801 entry:80102180:20008017
    trap:13:40010000:40030000:M
case:Profile:sd_A_=_0_and_D_=_0 paged before:U:40010000 word:80010000:b53023 x10:40030000 x11:1
  at:80102180:20008017
  after:M:80004000 entry:80100008:20040401 entry:80101000:20040801 entry:80102180:20008017
    trap:15:40010000:40030000:M
case:Profile:sd_D_=_0 paged before:U:40010000 word:80010000:b53023 x10:40030000 x11:1
  at:80102180:20008057
  after:M:80004000 entry:80100008:20040401 entry:80101000:20040801 entry:80102180:20008057
    trap:15:40010000:40030000:M
case:Profile:amoadd.d_D_=_0 paged before:U:40010000 word:80010000:b532af x10:40030000 x11:1
  at:80102180:20008057
  after:M:80004000 entry:80100008:20040401 entry:80101000:20040801 entry:80102180:20008057
    trap:15:40010000:40030000:M
case:Qemu:ld_with_D_=_0 paged before:U:40010000 word:80010000:53283 x10:40030000
  at:80020000:8877665544332211 at:80102180:20008057
  after:U:40010004 x5:8877665544332211 load:8:40030000:80020000 read:8877665544332211
    entry:80100008:20040401 entry:80101000:20040801 entry:80102180:20008057
case:Qemu:lr.d_with_D_=_0 paged before:U:40010000 word:80010000:100532af x10:40030000
  at:80020000:8877665544332211 at:80102180:20008057
  after:U:40010004 x5:8877665544332211 reserved:80020000:8
    lr:8:40030000:80020000 read:8877665544332211 entry:80100008:20040401 entry:80101000:20040801
    entry:80102180:20008057
case:Qemu:ld_without_W paged before:U:40010000 word:80010000:53283 x10:40030000
  at:80020000:8877665544332211 at:80102180:200080d3
  after:U:40010004 x5:8877665544332211 load:8:40030000:80020000 read:8877665544332211
    entry:80100008:20040401 entry:80101000:20040801 entry:80102180:200080d3
case:Qemu:ld_with_G_and_RSW_set paged before:U:40010000 word:80010000:53283 x10:40030000
  at:80020000:8877665544332211 at:80102180:200083f7
  after:U:40010004 x5:8877665544332211 load:8:40030000:80020000 read:8877665544332211
    entry:80100008:20040401 entry:80101000:20040801 entry:80102180:200083f7
case:Qemu:ld_with_G_and_RSW_set_in_a_pointer paged before:U:40010000 word:80010000:53283
  x10:c0020000 at:80020000:8877665544332211 at:80103000:20040b21
  after:U:40010004 x5:8877665544332211 load:8:c0020000:80020000 read:8877665544332211
    entry:80100018:20040c01 entry:80103000:20040b21 entry:80102100:200080d7
case:Profile:misaligned_ld_to_no_page paged before:U:40010000 word:80010000:53283 x10:40030004
  after:M:80004000 trap:4:40010000:40030004:M
case:Profile:misaligned_sd_to_no_page paged before:U:40010000 word:80010000:b53023 x10:40030004
  x11:1
  after:M:80004000 trap:6:40010000:40030004:M
case:Qemu:misaligned_amoadd.w_to_no_page paged before:U:40010000 word:80010000:b522af x10:40030002
  x11:1
  after:M:80004000 trap:6:40010000:40030002:M
case:Profile:misaligned_ld_in_a_page paged before:U:40010000 word:80010000:53283 x10:40020001
  after:M:80004000 trap:4:40010000:40020001:M
case:Profile:sw_across_the_end_of_a_page paged before:U:40010000 word:80010000:b52023 x10:40020ffe
  x11:1
  after:M:80004000 trap:6:40010000:40020ffe:M
case:Qemu:ld_of_a_page_with_X_alone_in_U paged before:U:40010000 word:80010000:53283 x10:40030000
  mstatus:0 at:80020000:8877665544332211 at:80102180:20008059
  after:M:80004000 entry:80100008:20040401 entry:80101000:20040801 entry:80102180:20008059
    trap:13:40010000:40030000:M
case:Qemu:ld_of_a_page_with_X_alone_in_S paged before:S:40011000 word:80010000:53283 x10:40030000
  mstatus:0 at:80020000:8877665544332211 at:80102180:20008049
  after:M:80004000 mstatus:a00000800 entry:80100008:20040401 entry:80101000:20040801
    entry:80102180:20008049 trap:13:40011000:40030000:M
case:Qemu:sd_of_a_page_with_X_alone paged before:U:40010000 word:80010000:b53023 x10:40030000 x11:1
  mstatus:0 at:80102180:200080d9
  after:M:80004000 entry:80100008:20040401 entry:80101000:20040801 entry:80102180:200080d9
    trap:15:40010000:40030000:M
case:Qemu:ld_of_a_page_with_X_alone_in_U_with_MXR paged before:U:40010000 word:80010000:53283
  x10:40030000 mstatus:80000 at:80020000:8877665544332211 at:80102180:20008059
  after:U:40010004 x5:8877665544332211 load:8:40030000:80020000 read:8877665544332211
    entry:80100008:20040401 entry:80101000:20040801 entry:80102180:20008059
case:Qemu:ld_of_a_page_with_X_alone_in_S_with_MXR paged before:S:40011000 word:80010000:53283
  x10:40030000 mstatus:80000 at:80020000:8877665544332211 at:80102180:20008049
  after:S:40011004 x5:8877665544332211 load:8:40030000:80020000 read:8877665544332211
    entry:80100008:20040401 entry:80101000:20040801 entry:80102180:20008049
case:Qemu:sd_of_a_page_with_X_alone_with_MXR paged before:U:40010000 word:80010000:b53023
  x10:40030000 x11:1 mstatus:80000 at:80102180:200080d9
  after:M:80004000 entry:80100008:20040401 entry:80101000:20040801 entry:80102180:200080d9
    trap:15:40010000:40030000:M
case:Qemu:amoadd.d_of_a_page_with_X_alone_with_MXR paged before:U:40010000 word:80010000:b532af
  x10:40030000 x11:1 mstatus:80000 at:80102180:200080d9
  after:M:80004000 entry:80100008:20040401 entry:80101000:20040801 entry:80102180:200080d9
    trap:15:40010000:40030000:M
case:Qemu:ld_in_S_of_a_page_of_U_without_SUM paged before:S:40011000 word:80010000:53283
  x10:40020000 mstatus:0 at:80020000:8877665544332211
  after:M:80004000 mstatus:a00000800 entry:80100008:20040401 entry:80101000:20040801
    entry:80102100:200080d7 trap:13:40011000:40020000:M
case:Qemu:sd_in_S_of_a_page_of_U_without_SUM paged before:S:40011000 word:80010000:b53023
  x10:40020000 x11:1 mstatus:0 at:80020000:8877665544332211
  after:M:80004000 mstatus:a00000800 entry:80100008:20040401 entry:80101000:20040801
    entry:80102100:200080d7 trap:15:40011000:40020000:M
case:Qemu:amoadd.d_in_S_of_a_page_of_U_without_SUM paged before:S:40011000 word:80010000:b532af
  x10:40020000 x11:1 mstatus:0 at:80020000:8877665544332211
  after:M:80004000 mstatus:a00000800 entry:80100008:20040401 entry:80101000:20040801
    entry:80102100:200080d7 trap:15:40011000:40020000:M
case:Qemu:lr.d_in_S_of_a_page_of_U_without_SUM paged before:S:40011000 word:80010000:100532af
  x10:40020000 mstatus:0 at:80020000:8877665544332211
  after:M:80004000 mstatus:a00000800 entry:80100008:20040401 entry:80101000:20040801
    entry:80102100:200080d7 trap:13:40011000:40020000:M
case:Qemu:ld_in_S_of_a_page_of_U_with_SUM paged before:S:40011000 word:80010000:53283 x10:40020000
  mstatus:40000 at:80020000:8877665544332211
  after:S:40011004 x5:8877665544332211 load:8:40020000:80020000 read:8877665544332211
    entry:80100008:20040401 entry:80101000:20040801 entry:80102100:200080d7
case:Qemu:sd_in_S_of_a_page_of_U_with_SUM paged before:S:40011000 word:80010000:b53023 x10:40020000
  x11:1 mstatus:40000 at:80020000:8877665544332211
  after:S:40011004 at:80020000:1 store:8:40020000:80020000 wrote:1 entry:80100008:20040401
    entry:80101000:20040801 entry:80102100:200080d7
case:Qemu:amoadd.d_in_S_of_a_page_of_U_with_SUM paged before:S:40011000 word:80010000:b532af
  x10:40020000 x11:1 mstatus:40000 at:80020000:8877665544332211
  after:S:40011004 x5:8877665544332211 at:80020000:8877665544332212
    amo:8:40020000:80020000 read:8877665544332211 wrote:8877665544332212 entry:80100008:20040401
    entry:80101000:20040801 entry:80102100:200080d7
case:Qemu:lr.d_in_S_of_a_page_of_U_with_SUM paged before:S:40011000 word:80010000:100532af
  x10:40020000 mstatus:40000 at:80020000:8877665544332211
  after:S:40011004 x5:8877665544332211 reserved:80020000:8
    lr:8:40020000:80020000 read:8877665544332211 entry:80100008:20040401 entry:80101000:20040801
    entry:80102100:200080d7
case:Qemu:ld_in_S_of_a_page_of_U_with_X_alone_SUM_and_MXR paged before:S:40011000
  word:80010000:53283 x10:40030000 mstatus:c0000 at:80020000:8877665544332211 at:80102180:20008059
  after:S:40011004 x5:8877665544332211 load:8:40030000:80020000 read:8877665544332211
    entry:80100008:20040401 entry:80101000:20040801 entry:80102180:20008059
case:Qemu:ld_in_U_of_a_page_of_S_with_SUM paged before:U:40010000 word:80010000:53283 x10:40021000
  mstatus:40000
  after:M:80004000 entry:80100008:20040401 entry:80101000:20040801 entry:80102108:200080c7
    trap:13:40010000:40021000:M
case:Qemu:ld_a_page_outside_RAM paged before:U:40010000 word:80010000:53283 x10:40030000
  at:80102180:240000d7
  after:M:80004000 entry:80100008:20040401 entry:80101000:20040801 entry:80102180:240000d7
    trap:5:40010000:40030000:M
case:Qemu:sd_a_page_outside_RAM paged before:U:40010000 word:80010000:b53023 x10:40030000 x11:1
  at:80102180:240000d7
  after:M:80004000 entry:80100008:20040401 entry:80101000:20040801 entry:80102180:240000d7
    trap:7:40010000:40030000:M
case:Qemu:lr.d_a_page_outside_RAM paged before:U:40010000 word:80010000:100532af x10:40030000
  at:80102180:240000d7
  after:M:80004000 entry:80100008:20040401 entry:80101000:20040801 entry:80102180:240000d7
    trap:5:40010000:40030000:M
case:Profile:amoadd.d_a_page_outside_RAM paged before:U:40010000 word:80010000:b532af x10:40030000
  x11:1 at:80102180:240000d7
  after:M:80004000 entry:80100008:20040401 entry:80101000:20040801 entry:80102180:240000d7
    trap:7:40010000:40030000:M
case:Qemu:ld_a_page_far_outside_RAM paged before:U:40010000 word:80010000:53283 x10:40030000
  at:80102180:3ffffffffffcd7
  after:M:80004000 entry:80100008:20040401 entry:80101000:20040801 entry:80102180:3ffffffffffcd7
    trap:5:40010000:40030000:M
case:Qemu:sd_a_page_far_outside_RAM paged before:U:40010000 word:80010000:b53023 x10:40030000 x11:1
  at:80102180:3ffffffffffcd7
  after:M:80004000 entry:80100008:20040401 entry:80101000:20040801 entry:80102180:3ffffffffffcd7
    trap:7:40010000:40030000:M
case:Profile:ld_the_root's_pointer_leads_outside_RAM paged before:U:40010000 word:80010000:53283
  x10:c0020000 at:80100018:24000001
  after:M:80004000 entry:80100018:24000001 trap:5:40010000:c0020000:M
case:Profile:sd_the_root's_pointer_leads_outside_RAM paged before:U:40010000 word:80010000:b53023
  x10:c0020000 x11:1 at:80100018:24000001
  after:M:80004000 entry:80100018:24000001 trap:7:40010000:c0020000:M
case:Profile:amoadd.d_the_root's_pointer_leads_outside_RAM paged before:U:40010000
  word:80010000:b532af x10:c0020000 x11:1 at:80100018:24000001
  after:M:80004000 entry:80100018:24000001 trap:7:40010000:c0020000:M
case:Profile:lr.d_the_root's_pointer_leads_outside_RAM paged before:U:40010000
  word:80010000:100532af x10:c0020000 at:80100018:24000001
  after:M:80004000 entry:80100018:24000001 trap:5:40010000:c0020000:M
case:Profile:ld_a_pointer_leads_outside_RAM paged before:U:40010000 word:80010000:53283 x10:c0020000
  at:80103000:6000001
  after:M:80004000 entry:80100018:20040c01 entry:80103000:6000001 trap:5:40010000:c0020000:M
case:Profile:sd_a_pointer_leads_outside_RAM paged before:U:40010000 word:80010000:b53023
  x10:c0020000 x11:1 at:80103000:6000001
  after:M:80004000 entry:80100018:20040c01 entry:80103000:6000001 trap:7:40010000:c0020000:M
case:Profile:sc.d_a_pointer_leads_outside_RAM paged before:U:40010000 word:80010000:18b532af
  x10:c0020000 x11:1 at:80103000:24000001
  after:M:80004000 entry:80100018:20040c01 entry:80103000:24000001 trap:7:40010000:c0020000:M
case:Qemu:ld_to_no_page_in_U_delegated paged before:U:40010000 word:80010000:53283 x10:40030000
  mstatus:2 medeleg:2000
  after:S:80008000 mstatus:a00000020 entry:80100008:20040401 entry:80101000:20040801
    entry:80102180:0 trap:13:40010000:40030000:S
case:Qemu:ld_to_no_page_in_S_delegated paged before:S:40011000 word:80010000:53283 x10:40030000
  mstatus:2 medeleg:2000
  after:S:80008000 mstatus:a00000120 entry:80100008:20040401 entry:80101000:20040801
    entry:80102180:0 trap:13:40011000:40030000:S
case:Qemu:sd_to_no_page_in_U_delegated paged before:U:40010000 word:80010000:b53023 x10:40030000
  x11:1 mstatus:2 medeleg:8000
  after:S:80008000 mstatus:a00000020 entry:80100008:20040401 entry:80101000:20040801
    entry:80102180:0 trap:15:40010000:40030000:S
case:Qemu:sd_to_no_page_in_S_delegated paged before:S:40011000 word:80010000:b53023 x10:40030000
  x11:1 mstatus:2 medeleg:8000
  after:S:80008000 mstatus:a00000120 entry:80100008:20040401 entry:80101000:20040801
    entry:80102180:0 trap:15:40011000:40030000:S
case:Qemu:ld_in_M_as_U_of_a_page_of_U paged before:M:80010000 word:80010000:53283 x10:40020000
  mstatus:20000 at:80020000:8877665544332211
  after:M:80010004 x5:8877665544332211 load:8:40020000:80020000 read:8877665544332211
    entry:80100008:20040401 entry:80101000:20040801 entry:80102100:200080d7
case:Qemu:ld_in_M_as_U_of_a_page_of_S paged before:M:80010000 word:80010000:53283 x10:40021000
  mstatus:20000 at:80020000:8877665544332211
  after:M:80004000 mstatus:a00021800 entry:80100008:20040401 entry:80101000:20040801
    entry:80102108:200080c7 trap:13:80010000:40021000:M
case:Qemu:sd_in_M_as_U_of_a_page_of_U paged before:M:80010000 word:80010000:b53023 x10:40020000
  x11:1 mstatus:20000 at:80020000:8877665544332211
  after:M:80010004 at:80020000:1 store:8:40020000:80020000 wrote:1 entry:80100008:20040401
    entry:80101000:20040801 entry:80102100:200080d7
case:Qemu:sd_in_M_as_U_of_a_page_of_S paged before:M:80010000 word:80010000:b53023 x10:40021000
  x11:1 mstatus:20000 at:80020000:8877665544332211
  after:M:80004000 mstatus:a00021800 entry:80100008:20040401 entry:80101000:20040801
    entry:80102108:200080c7 trap:15:80010000:40021000:M
case:Qemu:ld_in_M_as_S_of_a_page_of_U paged before:M:80010000 word:80010000:53283 x10:40020000
  mstatus:20800 at:80020000:8877665544332211
  after:M:80004000 mstatus:a00021800 entry:80100008:20040401 entry:80101000:20040801
    entry:80102100:200080d7 trap:13:80010000:40020000:M
case:Qemu:ld_in_M_as_S_of_a_page_of_S paged before:M:80010000 word:80010000:53283 x10:40021000
  mstatus:20800 at:80020000:8877665544332211
  after:M:80010004 x5:8877665544332211 load:8:40021000:80020000 read:8877665544332211
    entry:80100008:20040401 entry:80101000:20040801 entry:80102108:200080c7
case:Qemu:sd_in_M_as_S_of_a_page_of_U paged before:M:80010000 word:80010000:b53023 x10:40020000
  x11:1 mstatus:20800 at:80020000:8877665544332211
  after:M:80004000 mstatus:a00021800 entry:80100008:20040401 entry:80101000:20040801
    entry:80102100:200080d7 trap:15:80010000:40020000:M
case:Qemu:sd_in_M_as_S_of_a_page_of_S paged before:M:80010000 word:80010000:b53023 x10:40021000
  x11:1 mstatus:20800 at:80020000:8877665544332211
  after:M:80010004 at:80020000:1 store:8:40021000:80020000 wrote:1 entry:80100008:20040401
    entry:80101000:20040801 entry:80102108:200080c7
case:Qemu:ld_in_M_as_M_of_a_page_of_U paged before:M:80010000 word:80010000:53283 x10:80020000
  mstatus:21800 at:80020000:8877665544332211
  after:M:80010004 x5:8877665544332211 load:8:80020000:80020000 read:8877665544332211
case:Qemu:ld_in_M_as_M_of_a_page_of_S paged before:M:80010000 word:80010000:53283 x10:80020000
  mstatus:21800 at:80020000:8877665544332211
  after:M:80010004 x5:8877665544332211 load:8:80020000:80020000 read:8877665544332211
case:Qemu:sd_in_M_as_M_of_a_page_of_U paged before:M:80010000 word:80010000:b53023 x10:80020000
  x11:1 mstatus:21800 at:80020000:8877665544332211
  after:M:80010004 at:80020000:1 store:8:80020000:80020000 wrote:1
case:Qemu:sd_in_M_as_M_of_a_page_of_S paged before:M:80010000 word:80010000:b53023 x10:80020000
  x11:1 mstatus:21800 at:80020000:8877665544332211
  after:M:80010004 at:80020000:1 store:8:80020000:80020000 wrote:1
case:Qemu:ld_in_M_as_S_of_a_page_of_U_with_SUM paged before:M:80010000 word:80010000:53283
  x10:40020000 mstatus:60800 at:80020000:8877665544332211
  after:M:80010004 x5:8877665544332211 load:8:40020000:80020000 read:8877665544332211
    entry:80100008:20040401 entry:80101000:20040801 entry:80102100:200080d7
case:Qemu:ld_in_M_as_U_of_a_page_with_X_alone_with_MXR paged before:M:80010000 word:80010000:53283
  x10:40030000 mstatus:a0000 at:80020000:8877665544332211 at:80102180:20008059
  after:M:80010004 x5:8877665544332211 load:8:40030000:80020000 read:8877665544332211
    entry:80100008:20040401 entry:80101000:20040801 entry:80102180:20008059
case:Qemu:ld_in_M_as_U_to_no_page_delegated paged before:M:80010000 word:80010000:53283 x10:40030000
  mstatus:20000 medeleg:b3ff
  after:M:80004000 mstatus:a00021800 entry:80100008:20040401 entry:80101000:20040801
    entry:80102180:0 trap:13:80010000:40030000:M
case:Qemu:ld_in_M_as_U_without_translation bare before:M:80010000 word:80010000:53283 x10:80020000
  mstatus:20000 at:80020000:8877665544332211
  after:M:80010004 x5:8877665544332211 load:8:80020000:80020000 read:8877665544332211
case:Qemu:amoadd.d_in_M_as_S paged before:M:80010000 word:80010000:b532af x10:40021000 x11:1
  mstatus:20800 at:80020000:8877665544332211
  after:M:80010004 x5:8877665544332211 at:80020000:8877665544332212
    amo:8:40021000:80020000 read:8877665544332211 wrote:8877665544332212 entry:80100008:20040401
    entry:80101000:20040801 entry:80102108:200080c7
case:Qemu:ld_in_S_with_MPRV paged before:S:40011000 word:80010000:53283 x10:40021000 mstatus:21800
  at:80020000:8877665544332211
  after:S:40011004 x5:8877665544332211 load:8:40021000:80020000 read:8877665544332211
    entry:80100008:20040401 entry:80101000:20040801 entry:80102108:200080c7
case:Profile:misaligned_ld_in_M_as_U_to_no_page paged before:M:80010000 word:80010000:53283
  x10:40030001 mstatus:20000
  after:M:80004000 mstatus:a00021800 trap:4:80010000:40030001:M
end:162";

pub const FETCHES: &str = "
case:Qemu:a_page_of_U paged before:U:40010010 word:80010010:100293
  after:U:40010014 x5:1
case:Qemu:a_page_of_S paged before:S:40011ffc word:80010ffc:100293
  after:S:40012000 x5:1
case:Qemu:a_page_with_R_W_X_and_G paged before:U:40030000 word:80010000:100293 at:80102180:200040ff
  after:U:40030004 x5:1
case:Qemu:M_isn't_translated paged before:M:80010000 word:80010000:100293
  after:M:80010004 x5:1
case:Qemu:M_isn't_translated_with_MPRV paged before:M:80010000 word:80010000:100293 mstatus:20000
  after:M:80010004 x5:1
case:Qemu:jal_over_translated_pages paged before:U:40010000 word:80010000:1002ef
  after:U:40010800 x5:40010004
case:Qemu:auipc_over_translated_pages paged before:S:40011000 word:80010000:297
  after:S:40011004 x5:40011000
case:Qemu:ecall_over_translated_pages paged before:S:40011000 word:80010000:73
  after:M:80004000 mstatus:a00000800 trap:9:40011000:0:M
case:Profile:ebreak_over_translated_pages paged before:U:40010000 word:80010000:100073
  after:M:80004000 trap:3:40010000:40010000:M
case:Qemu:a_page_of_2_MiB_in_U paged before:U:40810000 word:80010000:100293 at:80101020:20000059
  after:U:40810004 x5:1
case:Qemu:a_page_of_1_GiB_in_U paged before:U:80010000 word:80010000:100293 at:80100010:20000059
  after:U:80010004 x5:1
case:Qemu:a_page_of_2_MiB_in_S paged before:S:40810000 word:80010000:100293 at:80101020:20000049
  after:S:40810004 x5:1
case:Qemu:a_page_of_1_GiB_in_S paged before:S:80010000 word:80010000:100293 at:80100010:20000049
  after:S:80010004 x5:1
case:Qemu:V_=_0 paged before:U:40030000 at:80102180:20004058
  after:M:80004000 unfetched trap:12:40030000:40030000:M
case:Qemu:no_entry paged before:U:40030000
  after:M:80004000 unfetched trap:12:40030000:40030000:M
case:Qemu:no_entry_in_the_root paged before:U:100000000
  after:M:80004000 unfetched trap:12:100000000:100000000:M
case:Qemu:X_lacking paged before:U:40030000 word:80010000:100293 at:80102180:20004053
  after:M:80004000 unfetched trap:12:40030000:40030000:M
case:Qemu:X_lacking_with_MXR paged before:S:40030000 word:80010000:100293 mstatus:80000
  at:80102180:200040c7
  after:M:80004000 unfetched mstatus:a00080800 trap:12:40030000:40030000:M
case:Qemu:W_without_R paged before:U:40030000 at:80102180:200040dd
  after:M:80004000 unfetched trap:12:40030000:40030000:M
case:Qemu:bit_54_set paged before:U:40030000 at:80102180:40000020004059
  after:M:80004000 unfetched trap:12:40030000:40030000:M
case:Qemu:bit_63_set paged before:U:40030000 at:80102180:8000000020004059
  after:M:80004000 unfetched trap:12:40030000:40030000:M
case:Qemu:A_set_in_a_pointer paged before:U:40010000 at:80101000:20040841
  after:M:80004000 unfetched trap:12:40010000:40010000:M
case:Qemu:D_set_in_a_pointer paged before:U:40010000 at:80101000:20040881
  after:M:80004000 unfetched trap:12:40010000:40010000:M
case:Qemu:U_set_in_a_pointer paged before:U:40010000 at:80101000:20040811
  after:M:80004000 unfetched trap:12:40010000:40010000:M
case:Qemu:a_pointer_at_the_last_level paged before:U:40030000 at:80102180:20040801
  after:M:80004000 unfetched trap:12:40030000:40030000:M
case:Qemu:a_misaligned_page_of_2_MiB paged before:U:4080f000 at:80101020:20000459
  after:M:80004000 unfetched trap:12:4080f000:4080f000:M
case:Qemu:a_misaligned_page_of_1_GiB paged before:U:80010000 at:80100010:20080059
  after:M:80004000 unfetched trap:12:80010000:80010000:M
case:Qemu:a_page_of_U_in_S paged before:S:40010000 word:80010000:100293
  after:M:80004000 unfetched mstatus:a00000800 trap:12:40010000:40010000:M
case:Qemu:a_page_of_U_in_S_with_SUM paged before:S:40010000 word:80010000:100293 mstatus:40000
  after:M:80004000 unfetched mstatus:a00040800 trap:12:40010000:40010000:M
case:Qemu:a_page_of_S_in_U paged before:U:40011000 word:80010000:100293
  after:M:80004000 unfetched trap:12:40011000:40011000:M
case:Qemu:a_page_of_S_in_U_with_SUM_and_MXR paged before:U:40011000 word:80010000:100293
  mstatus:c0000
  after:M:80004000 unfetched trap:12:40011000:40011000:M
case:Profile:A_=_0 paged before:U:40030000 word:80010000:100293 at:80102180:20004019
  after:M:80004000 unfetched trap:12:40030000:40030000:M
case:Profile:A_=_0_in_S paged before:S:40030000 word:80010000:100293 at:80102180:20004009
  after:M:80004000 unfetched mstatus:a00000800 trap:12:40030000:40030000:M
case:Qemu:bit_38_alone_set paged before:U:4040010000
  after:M:80004000 unfetched trap:12:4040010000:4040010000:M
case:Qemu:bit_39_alone_set paged before:U:8040010000
  after:M:80004000 unfetched trap:12:8040010000:8040010000:M
case:Qemu:bit_63_alone_set paged before:S:8000000040011000
  after:M:80004000 unfetched mstatus:a00000800 trap:12:8000000040011000:8000000040011000:M
case:Qemu:the_negative_half paged before:U:ffffffc040010000 word:80010000:100293
  at:80100808:20040401
  after:U:ffffffc040010004 x5:1
case:Qemu:a_page_outside_RAM paged before:U:40030000 at:80102180:24000059
  after:M:80004000 unfetched trap:1:40030000:40030000:M
case:Qemu:a_page_far_outside_RAM paged before:S:40030000 at:80102180:3ffffffffffc49
  after:M:80004000 unfetched mstatus:a00000800 trap:1:40030000:40030000:M
case:Profile:a_pointer_leads_outside_RAM paged before:U:40010000 at:80101000:24000001
  after:M:80004000 unfetched trap:1:40010000:40010000:M
case:Profile:the_root_lies_outside_RAM paged before:U:40010000 satp:8000000000090000
  after:M:80004000 unfetched trap:1:40010000:40010000:M
case:Qemu:no_page_delegated paged before:U:40030000 medeleg:1000
  after:S:80008000 unfetched trap:12:40030000:40030000:S
case:Qemu:no_page_in_S_delegated paged before:S:40030000 mstatus:2 medeleg:1000
  after:S:80008000 unfetched mstatus:a00000120 trap:12:40030000:40030000:S
case:Qemu:no_page_all_others_delegated paged before:U:40030000 medeleg:a3ff
  after:M:80004000 unfetched trap:12:40030000:40030000:M
case:Qemu:an_illegal_word_delegated paged before:U:40010000 word:80010000:0 medeleg:4
  after:S:80008000 trap:2:40010000:0:S
end:45";
