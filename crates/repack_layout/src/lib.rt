// Where the parts of a repacked file start, by the numbers that were measured, and its header.
#![tactic(auto)]

ghost use Rattle.std.specs.Prelude.{◌≡◌, ◌*◌, ◌≤◌, length};
ghost use Rattle.base_format.specs.Operation.{size_of};
ghost use Rattle.base_format.specs.Repack.{pcm_fill};
ghost use Rattle.base_format.specs.Size.{file_limit};
ghost use Rattle.repack_layout.specs.Layout.{pcm_pool, layout_of, new_header};

use base_format::{ENTRY_SIZE, Header, PCM_SIZE, POOLED_HEADER_SIZE, WAVE_SIZE};
use bytes_operation_size::operation_size;
use repack_put_items::WIDTH;
use repack_put_opening::{copy_size, fill_size};

// How many pools and opening operations there are, where payloads, opening and frames start, and where the file ends.
#[derive(Clone, Copy)]
pub struct Layout {
    pub pools: usize,
    pub operations: usize,
    pub payloads: usize,
    pub opening: usize,
    pub frames: usize,
    pub total: usize,
}

// One pool for PCM bytes, if there are any.
#[tactic(auto, using(crate::proofs::Numbers::no_pool_lem, crate::proofs::Numbers::some_pool))]
pub fn pcm_pool(pcm: usize) -> usize
    ensures { (result ≡ pcm_pool pcm) × (result ≤ 1) }
{
    pcm.min(1)
}

// One FILL, if PCM was written and less than all of it.
#[tactic(auto, using(crate::proofs::Numbers::fills_none, crate::proofs::Numbers::fills_full, crate::proofs::Numbers::fills_some))]
fn pcm_fill_count(pcm: usize) -> usize
    ensures { (result ≡ length (pcm_fill pcm)) × (result ≤ 1) }
{
    if pcm == 0 || PCM_SIZE <= pcm {
        return 0;
    }
    1
}

// How many bytes so many WRITEs take.
fn writes_size(count: usize) -> usize
    requires { count ≤ file_limit }
    ensures { (result ≡ count * size_of 3 0) × (result ≤ 0x10000000) }
{
    count * operation_size(WIDTH, 0)
}

// The layout of a master of so many opening records, of which so many go to PCM, with so many waves; its frames take `size` bytes.
#[tactic(auto, unfolding(crate::specs::Layout::layout_of))]
pub fn lay_out(records: usize, pcm: usize, waves: usize, size: usize) -> Layout
    requires { (pcm ≤ records) × (records ≤ file_limit) × (waves ≤ 11468) × (size ≤ 0x2000000) }
    ensures { result ≡ layout_of records pcm waves size }
{
    let cores = records - pcm;
    let pools = pcm_pool(pcm) + waves;
    let payloads = POOLED_HEADER_SIZE + pools * ENTRY_SIZE;
    let opening = payloads + (pcm + waves * WAVE_SIZE);
    let frames = opening + (fill_size(pcm) + (writes_size(cores) + copy_size(pcm)));
    Layout {
        pools,
        operations: pcm_fill_count(pcm) + (cores + pcm_pool(pcm)),
        payloads,
        opening,
        frames,
        total: frames + size,
    }
}

// The header of a repacked file.
#[tactic(auto, unfolding(crate::specs::Layout::new_header))]
pub fn new_header(header: Header, layout: Layout) -> Header
    requires { (layout.total ≤ file_limit) × (layout.opening ≤ layout.total) × (layout.pools ≤ layout.total) × (layout.operations ≤ layout.total) }
    ensures { result ≡ new_header header layout }
{
    Header {
        version: 2,
        repeat: header.repeat,
        frame_period: 0,
        card_count: 0,
        frame_count: header.frame_count,
        pool_count: layout.pools as u32,
        initial_count: layout.operations as u32,
        directory_offset: POOLED_HEADER_SIZE as u32,
        initial_start: layout.opening as u32,
        frame_start: layout.frames,
        total_size: layout.total as u32,
    }
}
