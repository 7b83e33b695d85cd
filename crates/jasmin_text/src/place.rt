ghost use Rattle.std.specs.Prelude.{◌≡◌, ◌+◌, ◌<◌, ◌^◌};
ghost use Rattle.jasmin_text.specs.Places as spec;

/// Where a byte of a text stands: the bytes before it, and its line and column, counted from 1.
#[derive(Clone, Copy, Debug, PartialEq, Eq)]
pub struct Place {
    pub offset: u32,
    pub line: u32,
    pub column: u32,
}

impl Place {
    pub fn first() -> Place
        ensures { result ≡ spec.first_place }
    {
        Place {
            offset: 0,
            line: 1,
            column: 1,
        }
    }

    /// So many bytes further on in the same line.
    pub fn along(self, bytes: u32) -> Place
        requires offset { self.offset + bytes < 2 ^ 32 }
        requires column { self.column + bytes < 2 ^ 32 }
        ensures { result ≡ spec.along bytes self }
    {
        Place {
            offset: self.offset + bytes,
            line: self.line,
            column: self.column + bytes,
        }
    }

    /// After a line feed that stands here.
    pub fn next_line(self) -> Place
        requires offset { self.offset + 1 < 2 ^ 32 }
        requires line { self.line + 1 < 2 ^ 32 }
        ensures { result ≡ spec.next_line self }
    {
        Place {
            offset: self.offset + 1,
            line: self.line + 1,
            column: 1,
        }
    }
}
