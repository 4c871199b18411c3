// "One constant list of 224 pitches holds them": the pitch of each sum of a note and a shift, from -48 to 175.
#![tactic(auto)]

ghost use Rattle.std.specs.Prelude.{◌≡◌, ◌<◌};
ghost use Rattle.pitch_table.specs.Pitch.{sum_at, pitch_of};

// The pitches, by octaves of the sum. The last twenty are 65,535, which the numbers there exceed.
const PITCHES: [u16; 224] = [
    // -48 to -37
    1, 1, 1, 1, 1, 1, 1, 1, 1, 1, 1, 1,
    // -36 to -25
    1, 1, 1, 1, 1, 1, 1, 2, 2, 2, 2, 2,
    // -24 to -13
    2, 2, 2, 2, 3, 3, 3, 3, 3, 3, 4, 4,
    // -12 to -1
    4, 4, 5, 5, 5, 5, 6, 6, 6, 7, 7, 8,
    // 0 to 11
    8, 9, 9, 10, 10, 11, 12, 12, 13, 14, 15, 15,
    // 12 to 23
    16, 17, 18, 19, 21, 22, 23, 24, 26, 28, 29, 31,
    // 24 to 35
    33, 35, 37, 39, 41, 44, 46, 49, 52, 55, 58, 62,
    // 36 to 47
    65, 69, 73, 78, 82, 87, 92, 98, 104, 110, 117, 123,
    // 48 to 59
    131, 139, 147, 156, 165, 175, 185, 196, 208, 220, 233, 247,
    // 60 to 71
    262, 277, 294, 311, 330, 349, 370, 392, 415, 440, 466, 494,
    // 72 to 83
    523, 554, 587, 622, 659, 698, 740, 784, 831, 880, 932, 988,
    // 84 to 95
    1047, 1109, 1175, 1245, 1319, 1397, 1480, 1568, 1661, 1760, 1865, 1976,
    // 96 to 107
    2093, 2217, 2349, 2489, 2637, 2794, 2960, 3136, 3322, 3520, 3729, 3951,
    // 108 to 119
    4186, 4435, 4699, 4978, 5274, 5588, 5920, 6272, 6645, 7040, 7459, 7902,
    // 120 to 131
    8372, 8870, 9397, 9956, 10548, 11175, 11840, 12544, 13290, 14080, 14917, 15804,
    // 132 to 143
    16744, 17740, 18795, 19912, 21096, 22351, 23680, 25088, 26580, 28160, 29834, 31609,
    // 144 to 155
    33488, 35479, 37589, 39824, 42192, 44701, 47359, 50175, 53159, 56320, 59669, 63217,
    // 156 to 167
    65535, 65535, 65535, 65535, 65535, 65535, 65535, 65535, 65535, 65535, 65535, 65535,
    // 168 to 175
    65535, 65535, 65535, 65535, 65535, 65535, 65535, 65535,
];

// The pitch at a place of the list. A constant array that is indexed by a variable is laid out on the stack at each use; read by halves, it
// is the half that the index can reach.
pub fn pitch_at(place: usize) -> u16
    requires { place < 224 }
    ensures { result ≡ pitch_of (sum_at place) }
{
    let within = place % 112;
    if place < 112 {
        return PITCHES[within];
    }
    PITCHES[112 + within]
}
