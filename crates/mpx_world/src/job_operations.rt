//! The operations of a job's own, as one list for all that belongs to the job.
use std::marker::Brand;

/// The one list of operations of a job, for contracts. What belongs to a job is run with no other list.
pub trait JobOperations {
    ghost use Rattle.std.specs.Prelude.{List};
    ghost use Rattle.mpx_num.specs.declared.own.Operation.{Operation};

    ghost operations: { List Operation };
}

/// A job without operations of its own.
impl JobOperations for Brand {
    ghost use Rattle.std.specs.Prelude.{[]};

    ghost operations = { [] };
}
