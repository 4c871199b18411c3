// The answer of repacking, and the last of its stages: a master whose PCM records run in order, by the refusals 23 and 24.
#![tactic(auto)]

ghost use Rattle.repack_ordered.specs.Answer.{Ordered, Repacks};

use base_format::{FILE_LIMIT, Header, MASTER_HEADER_SIZE, RECORD_SIZE, Refusal, Rule};
use repack_layout::lay_out;
use repack_measure::{SPOTS, measure_frames};
use repack_put_file::write_master;
use repack_wave_table::{BUCKETS, MOST};

// A master whose PCM records run 0, 1, 2 and so on: it is measured first, and written only where it fits. The answer is the length of the
// repacked file, or the refusal.
pub fn repack_measured(
    file: &[u8],
    header: Header,
    pcm: usize,
    buffer: &mut [u8],
) -> Result<usize, Refusal>
    requires { Ordered file.now header pcm }
    ensures { Repacks file.now buffer.old buffer.new result }
{
    let records = header.initial_count as usize;
    let frames = header.frame_count as usize;
    let mut heads = [0; BUCKETS];
    let mut next = [0; MOST];
    let mut places = [0; MOST];
    let mut spots = [0; SPOTS];
    let mut numbers = [0; MOST];
    let start = MASTER_HEADER_SIZE + records * RECORD_SIZE;
    let found = measure_frames(
        file,
        start,
        frames,
        &mut heads,
        &mut next,
        &mut places,
        &mut spots,
        &mut numbers,
    );
    let layout = lay_out(records, pcm, found.waves, found.size);
    if (FILE_LIMIT as usize) < layout.total {
        return Err(Refusal {
            rule: Rule::ResultSize,
            place: 0,
        });
    }
    if buffer.len() < layout.total {
        return Err(Refusal {
            rule: Rule::LentSize,
            place: 0,
        });
    }
    write_master(
        file, header, pcm, found, layout, &places, &spots, &numbers, buffer,
    );
    Ok(layout.total)
}
