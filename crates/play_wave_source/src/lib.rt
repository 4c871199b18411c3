// `wave_source` of the original: the pool that was last copied to a channel of a core.
#![tactic(auto)]

ghost use Rattle.std.specs.Prelude.{◌≡◌};
ghost use Rattle.base_format.specs.State.{wave_source};

use base_format::StreamPlayer;

// The pool last copied to a channel of a core; `None` where none was, and past the 8 channels of 2 cores.
#[tactic(auto, unfolding(base_format::specs::State::wave_source))]
pub fn wave_source(state: StreamPlayer, core: usize, channel: usize) -> Option<u16>
    ensures { result ≡ wave_source state core channel }
{
    if core < 2 && channel < 8 {
        let progress = state.progress;
        let source = progress.wave_sources[core * 8 + channel];
        return source.copied.then_some(source.pool);
    }
    None
}
