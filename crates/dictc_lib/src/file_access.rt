//! Access to the files of a compilation.

ghost use Rattle.std.specs.Prelude.{◌≡◌, ℕ, List, Result, IfErr, IfOk, string_bytes};
ghost use Rattle.image_format.specs.declared.digest_test.DigestTest.{DigestTest as DigestTestOf};
ghost use Rattle.programs.specs.Faults.{Names, NamesFileOrImage};
ghost use Rattle.programs.specs.declared.fault.Fault.{Fault as FaultOf};
ghost use Rattle.programs.specs.declared.fault.Fault.TheVariants.{File};
ghost use Rattle.programs.specs.declared.whole_file.WholeFile.{WholeFile as WholeFileOf};
ghost use Rattle.dictc_lib.specs.HostFiles.{host_loads, host_reads, host_reads_costs};
ghost use Rattle.dictc_lib.specs.MatrixFiles.{HasReadEnough};
ghost use Rattle.dictc_lib.specs.declared.matrix_file.MatrixFile.{MatrixFile as MatrixFileOf};

use crate::matrix_file::MatrixFile;
use dict_image::{Dict, DigestTest};
use programs::{Fault, Progress, WholeFile, load_dictionary};

/// Reads the files of a compilation.
pub trait FileAccess {
    /// Relates a path to the result of reading the `matrix.def` there.
    ghost reads_costs: { List ℕ → Result MatrixFileOf FaultOf → Type 0 };

    /// Relates a path to the result of reading the file there.
    ghost reads: { List ℕ → Result WholeFileOf FaultOf → Type 0 };

    /// Relates a path and a test of the checksum to the result of loading the image there.
    ghost loads: { List ℕ → DigestTestOf → Result (List ℕ) FaultOf → Type 0 };

    /// Reads the `matrix.def` at `path`.
    fn read_costs(&self, path: &str) -> Result<MatrixFile, Fault>
        ensures read { reads_costs path.now result }
        ensures bytes { IfOk result (λ costs. (bytes : List ℕ) × HasReadEnough bytes costs) }
        ensures fault { IfErr result (Names File path.now) };

    /// Reads the file at `path`.
    fn read(&self, path: &str) -> Result<WholeFile, Fault>
        ensures read { reads path.now result }
        ensures path { IfOk result (λ file. string_bytes file.path ≡ path.now) }
        ensures fault { IfErr result (Names File path.now) };

    /// Loads the dictionary of the image at `path`.
    fn load(&self, path: &str, digest: DigestTest) -> Result<Dict, Fault>
        ensures loaded { loads path.now digest result }
        ensures fault { IfErr result (NamesFileOrImage path.now) };
}

impl FileAccess for HostRuntime {
    ghost reads_costs = { host_reads_costs };

    ghost reads = { host_reads };

    ghost loads = { host_loads };

    /// Reads a `matrix.def`, which may be large, with a progress line on a terminal.
    fn read_costs(&self, path: &str) -> Result<MatrixFile, Fault> {
        let progress = Progress::new(self);
        let costs = MatrixFile::read(self, path, &progress);
        progress.erase();
        costs
    }

    fn read(&self, path: &str) -> Result<WholeFile, Fault> {
        WholeFile::read(self, path)
    }

    fn load(&self, path: &str, digest: DigestTest) -> Result<Dict, Fault> {
        load_dictionary(self, path, digest)
    }
}
