/// So many pages of 4 KiB, one after another, the first with this page number.
#[derive(Clone, Copy, Debug, PartialEq, Eq)]
pub struct PageRange {
    pub first: u64,
    pub pages: u64,
}
