// What a practice radio keeps, as a line of text (2026-02).
use console::output::Output;

// The numbers that stand before its run, and those behind it.
pub fn tell(out: &mut Output, before: &[u64; 7], run: bool, behind: &[u64; 6]) {
    out.filled(
        b"radio general # filters # receive # adcs # khz # transmit # priority # run ",
        before,
    );
    out.put(if run { b"on" } else { b"off" });
    out.filled(
        b" rxphase # txphase # alex1 # alex0 # attenuation # refused #\n",
        behind,
    )
}
