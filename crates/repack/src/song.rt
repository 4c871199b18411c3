// The entry point: the refusals 1 to 22 in their order, then the last stage.
ghost use Rattle.std.specs.Prelude.{◌≡◌, length};
ghost use Rattle.base_format.specs.Checked.{mapped};
ghost use Rattle.base_format.specs.Repack.{repack_into, buffer_after};
ghost use Rattle.base_format.specs.Rule.{answer_of};
ghost use Rattle.repack_ordered.specs.Answer.{Taken, Repacks};

use base_format::{Header, Refusal, Rule};
use check_file::check_file;
use repack_ordered::repack_measured;
use repack_put_opening::pcm_run;

// The version of a master.
const MASTER_VERSION: u8 = 1;

// An accepted file.
fn repack_accepted(file: &[u8], header: Header, buffer: &mut [u8]) -> Result<usize, Refusal>
    requires { Taken file.now header }
    ensures { Repacks file.now buffer.old buffer.new result }
{
    if header.version != MASTER_VERSION {
        return Err(Refusal {
            rule: Rule::OtherVersion,
            place: 0,
        });
    }
    match pcm_run(file, header.initial_count as usize) {
        Some(pcm) => repack_measured(file, header, pcm, buffer),
        None => Err(Refusal {
            rule: Rule::PcmOrder,
            place: 0,
        }),
    }
}

// A master as a file of version 2: the length of the result, which stands at the buffer's start, or the refusal, with nothing
// written.
#[tactic(auto, using(base_format::proofs::Answered::passed_on, crate::proofs::Stages::taken, crate::proofs::Stages::refused_answer, crate::proofs::Stages::refused_buffer))]
pub fn compile_song_v2(file: &[u8], buffer: &mut [u8]) -> Result<usize, Refusal>
    ensures { (answer_of result ≡ mapped length (repack_into file.now (length buffer.old))) × (buffer.new ≡ buffer_after file.now buffer.old) }
{
    let found = check_file(file)?;
    repack_accepted(file, found.header, buffer)
}
