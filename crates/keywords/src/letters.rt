// The stretch of the table that each first letter has.
ghost use Rattle.keywords.specs.Letters.{StretchOf};

// The words of the table from `from` to before `end`, and the length of the longest.
#[derive(Clone, Copy)]
pub struct Stretch {
    pub from: u8,
    pub end: u8,
    pub longest: u8,
}

// Where the words of each small letter start, and where those of the last one end.
const LETTER_STARTS: [u8; 27] = [
    0, 10, 21, 38, 45, 71, 80, 82, 84, 101, 104, 104, 111, 116, 126, 128, 145, 145, 162, 180, 199,
    204, 208, 219, 221, 221, 221,
];

// How long the longest word of each small letter is, 0 if it has none.
const LETTER_LONGEST: [u8; 26] = [
    12, 6, 10, 8, 12, 11, 8, 6, 12, 9, 0, 10, 11, 15, 6, 19, 0, 12, 13, 13, 8, 8, 10, 4, 0, 0,
];

// The words that start with byte `b`.
pub fn stretch_of(b: u8) -> Stretch
    ensures { StretchOf b result }
{
    if (b < 97u8) | (122u8 < b) {
        return Stretch {
            from: 0,
            end: 0,
            longest: 0,
        };
    }
    let starts = LETTER_STARTS;
    let longest = LETTER_LONGEST;
    let letter = (b - 97u8) as usize;
    Stretch {
        from: starts[letter],
        end: starts[letter + 1],
        longest: longest[letter],
    }
}
