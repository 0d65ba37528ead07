// Why a state file was not read.

/// Why a state file was not read. A line above 4,294,967,295 is given as that number.
#[derive(Drop, Debug)]
pub enum SchemaError {
    /// The line of the first field that is wrong, or where the bytes are no text, of the first token that can't stand there.
    Field(u32),
    Memory,
}
