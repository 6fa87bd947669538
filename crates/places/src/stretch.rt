// Records at equal distances in joined data, and a place up to which records were found.

// Records from a number on, so many of them: the offset of the first past its id, and the distance from one to the next.
#[derive(Clone, Copy)]
pub struct Stretch {
    pub number: u64,
    pub first: u64,
    pub stride: u64,
    pub count: u64,
}

// A place in joined data: the index of the words of the fragments that follow, a position of the image and the bytes left there of its
// fragment; its offset in the joined data; how many records of the group lie before it.
#[derive(Clone, Copy)]
pub struct Scan {
    pub at: u64,
    pub position: u64,
    pub left: u64,
    pub offset: u64,
    pub number: u64,
}

// The next records of a group, and the place past them.
#[derive(Clone, Copy)]
pub struct Next {
    pub stretch: Stretch,
    pub scan: Scan,
}
