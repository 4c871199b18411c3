// Writes a repacked file, part by part, into a buffer that holds it.
#![tactic(auto)]

ghost use Rattle.std.specs.Prelude.{◌≡◌, ◌≤◌, length};
ghost use Rattle.base_format.specs.Repack.{repacked};
ghost use Rattle.base_format.specs.Size.{file_limit};
ghost use Rattle.base_format.specs.Written.{written};
ghost use Rattle.bytes_read.specs.Put.{put};
ghost use Rattle.base_master.specs.Places.{master_of};
ghost use Rattle.repack_layout.specs.Layout.{Known, layout_of, front_of, FrontFits};

use base_format::{Header, MASTER_HEADER_SIZE, RECORD_SIZE};
use bytes_put_header::put_header;
use repack_layout::{Layout, new_header, pcm_pool};
use repack_measure::{Measure, SPOTS};
use repack_put_directory::put_directory;
use repack_put_frames::put_frames;
use repack_put_opening::put_opening;
use repack_put_payloads::{put_pcm, put_waves};
use repack_wave_table::MOST;

// The header, the directory and the payloads.
fn write_front(
    file: &[u8],
    header: Header,
    pcm: usize,
    waves: usize,
    layout: Layout,
    places: &[u32; MOST],
    buffer: &mut [u8],
)
    requires { FrontFits file.now header pcm waves layout places.now buffer.old }
    ensures { buffer.new ≡ put (front_of file.now header pcm waves layout places.now) 0 buffer.old }
{
    let records = header.initial_count as usize;
    let payloads = layout.payloads;
    put_header(buffer, new_header(header, layout));
    put_directory(buffer, pcm, waves, payloads);
    put_pcm(file, records, buffer, payloads);
    put_waves(file, places, waves, buffer, payloads + pcm);
}

// The whole file.
pub fn write_master(
    file: &[u8],
    header: Header,
    pcm: usize,
    found: Measure,
    layout: Layout,
    places: &[u32; MOST],
    spots: &[u32; SPOTS],
    numbers: &[u16; MOST],
    buffer: &mut [u8],
)
    requires { Known file.now header places.now spots.now numbers.now pcm found.waves found.uses found.size
        × (layout ≡ layout_of header.initial_count pcm found.waves found.size) × (layout.total ≤ file_limit) × (layout.total ≤ length buffer.old) }
    ensures { buffer.new ≡ put (written (repacked (master_of file.now header))) 0 buffer.old }
{
    let records = header.initial_count as usize;
    let frames = header.frame_count as usize;
    let start = MASTER_HEADER_SIZE + records * RECORD_SIZE;
    write_front(file, header, pcm, found.waves, layout, places, buffer);
    put_opening(file, records, pcm, buffer, layout.opening);
    put_frames(
        file,
        start,
        frames,
        pcm_pool(pcm),
        spots,
        numbers,
        buffer,
        layout.frames,
    );
}
