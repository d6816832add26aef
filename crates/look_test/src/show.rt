// The lines of look_test: a look's answer.
use index::Overrun;
use look::height::Look;

fn show_free(h: f64, gap: f64) {
    io::write_all(1, b"free ");
    io::print_hex(1, numbers::bits_of(h), 16);
    io::write_all(1, b" ");
    io::print_hex(1, numbers::bits_of(gap), 16);
    io::write_all(1, b"\n");
}

pub fn show(a: Result<Look, Overrun>) {
    match a {
        Ok(Look::Free(h, gap)) => show_free(h, gap),
        Ok(Look::Full) => {
            io::write_all(1, b"full\n");
        }
        Err(_) => {
            io::write_all(1, b"no 22\n");
        }
    }
}

// What no stored look is: numbers too large, or entries that do not fit.
pub fn show_bad() {
    io::write_all(1, b"bad\n");
}
