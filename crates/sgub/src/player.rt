// The player for C and Rust: its start, and one vsync call and one jump over a lent state.
ghost use Rattle.std.specs.Prelude.{◌≡◌};
ghost use Rattle.base_format.specs.State.{started, wave_source};
ghost use Rattle.base_format.specs.Stream.{read};
ghost use Rattle.play_jump.specs.Jumped.{JumpMade};
ghost use Rattle.play_start.specs.Start.{verdict_in};
ghost use Rattle.play_planned.specs.Vsync.{Advanced};
ghost use Rattle.sgub_player.specs.Player.{start_fields, source_fields};

use base_format::{StreamPlayer, WaveSource, WriteRecord};
use play::Vsync;
use play_jump::Jumped;
use sgub_player::SgubStarted;

#[unsafe(no_mangle)]
pub extern "C" fn sgub_start(file: &[u8]) -> SgubStarted
    ensures { result ≡ start_fields (verdict_in (read file.now)) (started file.now) }
{
    sgub_player::started_of(play_start::start(file))
}

// `advance_vsync` itself, under its exported name. A refused call changes nothing.
#[unsafe(no_mangle)]
pub extern "C" fn sgub_advance_vsync(
    player: &mut StreamPlayer,
    file: &[u8],
    run: &mut [WriteRecord],
) -> Vsync
    ensures { Advanced player.old file.now run.old result player.new run.new }
{
    play::advance_vsync(player, file, run)
}

// `jump_to_frame` itself, under its exported name. A refused jump changes nothing.
#[unsafe(no_mangle)]
pub extern "C" fn sgub_jump(
    player: &mut StreamPlayer,
    file: &[u8],
    index: &[u8],
    frame: u32,
) -> Jumped
    ensures { JumpMade player.old file.now index.now frame result player.new }
{
    play_jump::jump_to_frame(player, file, index, frame)
}

// The pool last copied to a channel of a core, as the state holds it; not copied, and 0, where none was and outside of 2 × 8.
#[unsafe(no_mangle)]
pub extern "C" fn sgub_wave_source(player: StreamPlayer, core: usize, channel: usize) -> WaveSource
    ensures { result ≡ source_fields (wave_source player core channel) }
{
    sgub_player::source_of(play_wave_source::wave_source(player, core, channel))
}
