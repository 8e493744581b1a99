// Questions.

// "A question has a kind and four numbers", wide enough that a caller can hand in anything. Laid out as C's struct, since C
// lends the read list.
#[repr(C)]
#[derive(Clone, Copy, Default)]
pub struct Question {
    pub kind: u32,
    pub datasource: u32,
    pub parameter: u32,
    pub record: u32,
    pub entry: u32,
}
