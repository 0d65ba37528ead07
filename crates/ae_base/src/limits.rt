// The most that each thing may be, each number said once in the code, as specs/Limits says it for contracts.
/// The last moment, in seconds since 1970: the end of the year 2099.
pub const LAST_MOMENT: u64 = 4_102_444_799;

/// The bytes of a file, 4 MiB.
pub const MOST_FILE_BYTES: usize = 4_194_304;

/// The bytes of a file of attributes.
pub const MOST_ATTRIBUTE_BYTES: usize = 65_536;

/// The bytes of all files that a development freezes, 64 MiB.
pub const MOST_FROZEN_BYTES: usize = 67_108_864;

/// The files of a change.
pub const MOST_CHANGE_FILES: usize = 1000;

/// The files that a project ever had.
pub const MOST_PROJECT_FILES: usize = 20_000;

/// The tests of a baseline.
pub const MOST_PROJECT_TESTS: usize = 1000;

/// The users of a role.
pub const MOST_ROLE_USERS: usize = 256;

/// The changes of a project.
pub const MOST_CHANGES: usize = 1990;

/// The deltas of a project.
pub const MOST_DELTAS: usize = 1990;

/// The number of a version, 2^62.
pub const MOST_VERSIONS: u64 = 4_611_686_018_427_387_904;

/// The number of the next version, which may be past that by the files of a change.
pub const MOST_NEXT_VERSION: u64 = 4_611_686_018_427_388_904;

/// The rows of a change's history.
pub const MOST_HISTORY_ROWS: usize = 1000;

/// The units of 64 bytes that hold the bytes of versions, 1 GiB.
pub const MOST_UNITS: u64 = 16_777_216;
