// The keys of rows that ascend, and their order.
use crate::ascending::Keyed;
use ae_base::ChangeNo;
use ae_types::{ChangeFile, Evidence, FileRow, Lock, compare_runs, is_path_below};

impl Keyed for ChangeNo {
    ghost use Rattle.std.specs.Prelude.{ℕ};
    ghost use Rattle.std.specs.Ordering.{nat_cmp};
    ghost use Rattle.ae_types.specs.Ordered.{itself};

    ghost Key = { ℕ };

    ghost key = { itself };

    ghost order = { nat_cmp };

    fn is_below(&self, other: &ChangeNo) -> bool {
        self.number().cmp(&other.number()).is_lt()
    }
}

impl Keyed for FileRow {
    ghost use Rattle.std.specs.Prelude.{ℕ, List};
    ghost use Rattle.ae_types.specs.Found.{row_path};
    ghost use Rattle.ae_base.specs.Rows.{text_cmp};

    ghost Key = { List ℕ };

    ghost key = { row_path };

    ghost order = { text_cmp };

    fn is_below(&self, other: &FileRow) -> bool {
        is_path_below(&self.path, &other.path)
    }
}

impl Keyed for Lock {
    ghost use Rattle.std.specs.Prelude.{ℕ, List};
    ghost use Rattle.ae_types.specs.Found.{lock_path};
    ghost use Rattle.ae_base.specs.Rows.{text_cmp};

    ghost Key = { List ℕ };

    ghost key = { lock_path };

    ghost order = { text_cmp };

    fn is_below(&self, other: &Lock) -> bool {
        is_path_below(&self.path, &other.path)
    }
}

impl Keyed for ChangeFile {
    ghost use Rattle.std.specs.Prelude.{ℕ, List};
    ghost use Rattle.ae_types.specs.Found.{file_path};
    ghost use Rattle.ae_base.specs.Rows.{text_cmp};

    ghost Key = { List ℕ };

    ghost key = { file_path };

    ghost order = { text_cmp };

    fn is_below(&self, other: &ChangeFile) -> bool {
        is_path_below(&self.path, &other.path)
    }
}

impl Keyed for Evidence {
    ghost use Rattle.ae_types.specs.Runs.{RunKey, run_cmp, run_of};

    ghost Key = { RunKey };

    ghost key = { run_of };

    ghost order = { run_cmp };

    fn is_below(&self, other: &Evidence) -> bool {
        compare_runs(self, other).is_lt()
    }
}
