// The records of a reading: how many bytes each takes (reader's measure_width to lyricWidth, and specs/Widths), for those who write readings and those who read them.
#![tactic(auto)]

// A count, of a section's records or of the parts.
pub const COUNT: usize = 4;

// Where the first part begins: after the count of parts.
pub const FIRST_PART: usize = COUNT;

pub const MEASURE: usize = 28;

pub const NOTE: usize = 12;

pub const PITCH: usize = 5;

pub const LYRIC: usize = 11;

// WHERE A FIELD STANDS IN ITS RECORD (specs/Fields)
// Of a measure; the note counts of its voices come first, COUNT bytes each.
pub const LEFT: usize = 16;

pub const RIGHT: usize = 17;

pub const KEY_MARK: usize = 20;

pub const VOLTA: usize = 22;

pub const PASSES: usize = 24;

// Of a note.
pub const KIND: usize = 0;

pub const VALUE: usize = 1;

pub const DOTS: usize = 2;

pub const FLAGS: usize = 3;

pub const BEAM: usize = 4;

pub const BOUNDARY: usize = 7;

pub const PITCHES: usize = 8;

// Of a pitch.
pub const STEP: usize = 0;

// Of a lyric; its note's index comes first.
pub const VERSE: usize = 4;

pub const SYLLABIC: usize = 5;

pub const EXTEND: usize = 6;

pub const TEXT: usize = 7;
