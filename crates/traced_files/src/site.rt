// Which trace it is.

use std::marker::Brand;

/// Names a trace's word and a pool of credits, and how the files were when the trace began. What lies behind a lock is known by its type alone, so the type has
/// a parameter that says of which trace it is.
pub trait Site {
    ghost use Rattle.atomic_table.specs.Seated.{TableId};
    ghost use Rattle.traced_files.specs.Start.{Start};

    ghost word: { TableId };

    ghost pool: { TableId };

    ghost start: { Start };
}

impl Site for Brand {
    ghost use Rattle.traced_files.specs.Start.{no_start};
    ghost use Rattle.traced_files.specs.States.{no_word};

    ghost word = { no_word };

    ghost pool = { no_word };

    ghost start = { no_start };
}
