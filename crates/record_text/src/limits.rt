//! How large the text of a record may be.

/// The most bytes of a text.
pub const MAX_RECORD: usize = 16_777_216;

/// The most item lines.
pub const MAX_ITEMS: usize = 40_000;

/// The most bytes of a line behind the line `record`, without its line feed.
pub const MAX_RECORD_LINE: usize = 400;

/// The room that the buffer of a line behind the line `record` needs, in bytes. With many workers a line may have more than 400.
pub const RECORD_LINE_ROOM: usize = 1_024;
