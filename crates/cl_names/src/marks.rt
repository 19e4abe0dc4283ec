//! What the bytes of a text are, all in one walk.
ghost use Rattle.std.specs.Prelude.{◌≡◌, ◌==◌, ◌||◌, not};
ghost use Rattle.std.specs.List.{list_all};
ghost use Rattle.cl_names.specs.Text.{is_single, is_text};
ghost use Rattle.cl_names.specs.Kind.{is_allowed, is_angle, has_no_angle, has_class_form, has_unqualified_form};
ghost use Rattle.cl_names.specs.Bits.{lacks};

use crate::text::is_text;

/// The byte spells no code unit alone.
const PART: u8 = 1;

/// `<` or `>`.
const ANGLE: u8 = 2;

/// `.` `;` `[` or `/`.
const FORBIDDEN: u8 = 4;

const SLASH: u8 = 8;

/// `.` `;` or `[`.
const ENDS_CLASS: u8 = 16;

/// The marks of each byte, and 64 besides, so that they are letters: `A` is `PART`, `B` is `ANGLE`, `L` is a slash, `T` one
/// of `.` `;` `[`.
static MARKS: [u8; 256] = *b"\
    A@@@@@@@@@@@@@@@@@@@@@@@@@@@@@@@\
    @@@@@@@@@@@@@@TL@@@@@@@@@@@TB@B@\
    @@@@@@@@@@@@@@@@@@@@@@@@@@@T@@@@\
    @@@@@@@@@@@@@@@@@@@@@@@@@@@@@@@@\
    AAAAAAAAAAAAAAAAAAAAAAAAAAAAAAAA\
    AAAAAAAAAAAAAAAAAAAAAAAAAAAAAAAA\
    AAAAAAAAAAAAAAAAAAAAAAAAAAAAAAAA\
    AAAAAAAAAAAAAAAAAAAAAAAAAAAAAAAA";

/// What the bytes of a text are.
#[derive(Clone, Copy)]
pub struct Marks {
    /// Each spells a code unit alone.
    pub single: bool,
    /// They have the form of a class's name.
    pub class: bool,
    /// They have the form of an unqualified name.
    pub unqualified: bool,
    /// None is `<` or `>`.
    pub plain: bool,
}

impl Marks {
    /// Whether the bytes are modified UTF-8, which another walk tells where these marks do not.
    pub fn has_text(self, bytes: &[u8]) -> bool
        requires { self.single ≡ list_all is_single bytes.now }
        ensures { result ≡ is_text bytes.now }
    {
        self.single || is_text(bytes)
    }
}

fn marks_at(byte: u8) -> u8
    ensures single { lacks 0 result ≡ is_single byte }
    ensures plain { lacks 1 result ≡ not (is_angle byte) }
    ensures allowed { lacks 2 result ≡ is_allowed byte }
    ensures slash { lacks 3 result ≡ not (byte == 0x2f) }
    ensures parted { lacks 4 result ≡ is_allowed byte || byte == 0x2f }
{
    MARKS[byte as usize]
}

/// What the bytes are. Most texts are short, so no byte ends the walk, and it has no branch.
pub fn marks_of(bytes: &[u8]) -> Marks
    ensures single { result.single ≡ list_all is_single bytes.now }
    ensures class { result.class ≡ has_class_form bytes.now }
    ensures unqualified { result.unqualified ≡ has_unqualified_form bytes.now }
    ensures plain { result.plain ≡ has_no_angle bytes.now }
{
    let mut seen = 0u8;
    let mut twice = 0u8;
    let mut last = SLASH;
    for byte in bytes {
        let marks = marks_at(*byte);
        seen |= marks;
        twice |= marks & last;
        last = marks;
    }
    Marks {
        single: seen & PART == 0,
        class: (seen & ENDS_CLASS == 0) & (twice & SLASH == 0) & (last & SLASH == 0),
        unqualified: (seen & FORBIDDEN == 0) & !bytes.is_empty(),
        plain: seen & ANGLE == 0,
    }
}
