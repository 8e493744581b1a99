// The read list.
ghost use Rattle.std.specs.Prelude.{◌≡◌, ◌+◌, ◌≤◌, length, take};
ghost use Rattle.std.proofs.lemmas.List.Edits.{sets};
ghost use Rattle.values.specs.Inner.Word.{questions};

use crate::state::Batch;
use meaning::question::Question;
use values::word;

// Adds the questions of a log to the read list.
pub fn append(reads: &mut [Question], log: Batch)
    requires { (log.at + log.n ≤ length reads.old) × (log.n ≤ 512) }
    ensures { reads.new ≡ sets reads.old log.at (take log.n (questions log.words)) }
{
    for i in 0..log.n {
        reads[log.at + i] = word::unpacked(log.words[i]);
    }
}
