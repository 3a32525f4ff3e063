// The phase word of a frequency.
ghost use Rattle.std.specs.Prelude.{◌≡◌};
ghost use Rattle.tuning.specs.Phase.{phase_word_of};

// The radio's ADC clock.
pub const ADC_CLOCK_HZ: f64 = 122_880_000.0;

// f * 2^32 over the clock, floored over its bits.
pub fn phase_word(f: f64) -> u32
    ensures { result ≡ phase_word_of f }
{
    double::whole::cast_u32(f * 4_294_967_296.0 / ADC_CLOCK_HZ)
}
