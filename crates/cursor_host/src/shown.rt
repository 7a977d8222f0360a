// The records as programs print them.
use std::fmt;

// The pointer's fields, each after a space.
#[derive(Clone, Copy)]
pub struct Pointer(pub cursor_pointer::Pointer);

impl fmt::Display for Pointer {
    fn fmt<W: fmt::Write>(&self, f: &mut fmt::Formatter<W>) -> fmt::Result {
        let cursor_pointer::Pointer {
            known,
            sequence,
            x,
            y,
        } = self.0;
        let known = u8::from(known);
        write!(f, " {known} {sequence} {x} {y}")
    }
}

// The picture's fields, each after a space.
#[derive(Clone, Copy)]
pub struct Picture(pub cursor_picture::Picture);

impl fmt::Display for Picture {
    fn fmt<W: fmt::Write>(&self, f: &mut fmt::Formatter<W>) -> fmt::Result {
        let cursor_picture::Picture {
            opened,
            id,
            total,
            opening,
            seen,
            start,
        } = self.0;
        let opened = u8::from(opened);
        let seen = u8::from(seen);
        write!(f, " {opened} {id} {total} {opening} {seen}")?;
        write!(f, " {} {} {}", start.image_type, start.hot_x, start.hot_y)
    }
}
