// A journal on standard input becomes lines of text, and lines of text become a journal, on standard output.
#![tactic(auto)]

ghost use Rattle.std.specs.Prelude.{◌≡◌, ℕ, ◌≤◌, length};
ghost use Rattle.text.specs.declared.Answer.TheVariants.{Done};

use text::Answer;

fn too_long() {
    io::write_all(1, b"14\n");
}

// A journal begins with the tag of its header, and a line with a letter.
fn is_journal(s: &[u8]) -> bool {
    if s.len() == 0 {
        return false;
    }
    s[0] == 0x10
}

fn show(r: Answer, out: &[u8], place: &[u8])
    requires { (k : ℕ) → r ≡ Done k → k ≤ length out.now }
{
    match r {
        Answer::Done(k) => {
            io::write_all(1, &out[..k]);
        }
        Answer::Malformed(n) => {
            io::write_all(1, place);
            io::print_decimal(1, n as u64);
            io::write_all(1, b": 13\n");
        }
        Answer::Short => {
            too_long();
        }
    }
}

fn main() {
    let mut input: [u8; 81920] = [0; 81920];
    let mut out: [u8; 81920] = [0; 81920];
    let n = io::read_full(0, &mut input);
    if n == 81920 {
        too_long();
        return;
    }
    if is_journal(&input[..n]) {
        let r = text::to_text(&input[..n], &mut out);
        show(r, &out, b"offset ");
        return;
    }
    let r = text::to_journal(&input[..n], &mut out);
    show(r, &out, b"line ");
}
