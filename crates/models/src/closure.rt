//! The transitive closure of a table of sets.
ghost use Rattle.std.specs.Prelude.{◌<◌};
ghost use Rattle.models.specs.Rows.{Passed, Closed};

use opset::OpSet;

// Adds to each row that has `via` what the row of `via` has.
fn pass_through(rows: &mut [OpSet; 64], via: u8)
    requires { via < 64 }
    ensures { Passed rows.old via rows.new }
{
    let more = rows[via as usize];
    for row in rows.iter_mut() {
        if row.contains(via) {
            *row = row.union(more);
        }
    }
}

// Makes of a table its transitive closure.
pub(crate) fn close(rows: &mut [OpSet; 64])
    ensures { Closed rows.old rows.new }
{
    for via in 0..64 {
        pass_through(rows, via);
    }
}
