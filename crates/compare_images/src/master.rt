// A master's memory image: begun at 0x80, and given the PCM writes of its opening records.
ghost use Rattle.std.specs.Prelude.{◌≡◌, [], ◌∷◌, ◌≤◌, length, replicate};
ghost use Rattle.base_format.specs.Compare.{played};
ghost use Rattle.base_format.specs.Size.{master_header_size};
ghost use Rattle.compare_segment.specs.Segments.{record_write, record_writes};

use base_format::{MASTER_HEADER_SIZE, RECORD_SIZE};
use bytes_operation::decode_record;
use bytes_read::item_bytes;
use compare_image_bytes::begin_image;

// The write of the record at a place.
#[tactic(auto, using(compare_image_bytes::proofs::Image::write_in, compare_image_bytes::proofs::Image::write_other, compare_image_bytes::proofs::Image::write_past))]
fn play_record(file: &[u8], at: usize, image: &mut [u8])
    ensures { image.new ≡ played image.old (record_write file.now at ∷ []) }
{
    let item = decode_record(item_bytes(file, at));
    if item.target != 2 {
        return;
    }
    let address = item.address as usize;
    if image.len() <= address {
        return;
    }
    image[address] = item.value;
}

// The writes of so many records from a place.
#[tactic(auto, using(compare_image_bytes::proofs::Image::records_step, compare_image_bytes::proofs::Image::records_end))]
fn play_records(file: &[u8], start: usize, count: u32, image: &mut [u8])
    requires { start ≤ 0x1000000000 }
    ensures { image.new ≡ played image.old (record_writes file.now count start) }
{
    for i in 0..count {
        play_record(file, start + i as usize * RECORD_SIZE, image);
    }
}

// A master's image: its opening records stand behind the header.
pub fn draw_master(master: &[u8], records: u32, image: &mut [u8])
    ensures { image.new ≡ played (replicate (length image.old) 0x80) (record_writes master.now records master_header_size) }
{
    begin_image(image);
    play_records(master, MASTER_HEADER_SIZE, records, image);
}
