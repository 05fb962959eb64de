// What C lends and takes back: elements of lent bytes, and answers as plain numbers.
#![tactic(auto)]

pub mod arrays;
pub mod compiles;
pub mod rows;
pub mod runs;
pub mod sessions;

#[repr(C)]
#[derive(Clone, Copy)]
pub struct CompileAnswer {
    pub number: u32,
    pub place: u32,
}

#[repr(C)]
#[derive(Clone, Copy)]
pub struct RunAnswer {
    pub number: u32,
    pub place: u32,
    pub reason: u32,
    pub used: u32,
    pub counter: u32,
    pub accumulator: u32,
}

#[repr(C)]
#[derive(Clone, Copy)]
pub struct RoundAnswer {
    pub number: u32,
    pub place: u32,
    pub reason: u32,
}

#[repr(C)]
#[derive(Clone, Copy)]
pub struct TakeAnswer {
    pub number: u32,
    pub answer: u32,
}
