// Builds the index of an accepted file into a lent buffer.
#![tactic(auto)]

ghost use Rattle.std.specs.Prelude.{◌≡◌, ◌^◌, ◌<◌, length};
ghost use Rattle.base_format.specs.Checked.{mapped};
ghost use Rattle.base_format.specs.Index.{index_into, index_after};
ghost use Rattle.base_format.specs.Rule.{answer_of};
ghost use Rattle.index_build.specs.Answer.{Into, built_into};

use base_format::{Header, INDEX_ENTRY_SIZE, INDEX_TRAILER_SIZE, Refusal, Rule};
use check_file::check_file;
use index_frames::entry_count;
use index_put::{put_entries, put_trailer};

// The index by a header, where the buffer holds it.
#[tactic(auto, using(crate::proofs::Answers::refuses, crate::proofs::Answers::short_room))]
fn build_accepted(file: &[u8], header: Header, buffer: &mut [u8]) -> Result<usize, Refusal>
    requires { header.frame_start < 2 ^ 32 }
    ensures { Into (built_into header file.now (length buffer.old)) (answer_of result) buffer.old buffer.new }
{
    let entries = entry_count(header.frame_count);
    let place = entries * INDEX_ENTRY_SIZE;
    let size = place + INDEX_TRAILER_SIZE;
    if buffer.len() < size {
        return Err(Refusal {
            rule: Rule::LentSize,
            place: 0,
        });
    }
    put_entries(file, header.version, entries, header.frame_start, buffer);
    put_trailer(place, entries, header.total_size, buffer);
    Ok(size)
}

// The index of a file: its length, and it stands at the buffer's start; or the refusal, with nothing written.
pub fn build_index(file: &[u8], buffer: &mut [u8]) -> Result<usize, Refusal>
    ensures { (answer_of result ≡ mapped length (index_into file.now (length buffer.old))) × (buffer.new ≡ index_after file.now buffer.old) }
{
    let checked = check_file(file)?;
    build_accepted(file, checked.header, buffer)
}
