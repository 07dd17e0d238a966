//! Where the text of a job ends.
ghost use Rattle.std.specs.Prelude.{◌≡◌, ◌<◌, ◌≤◌, true, length, codes};
ghost use Rattle.job.specs.Split.{space, ends_word, begins, device_line, starts_device, text_length};

fn is_space(b: u8) -> bool
    ensures { result ≡ space b }
{
    matches!(b, b' ' | b'\t' | b'\r')
}

fn ends_word(bytes: &[u8]) -> bool
    ensures { result ≡ ends_word bytes.now }
{
    bytes.first().is_none_or(|b| !b.is_ascii_alphanumeric())
}

fn begins_device(bytes: &[u8]) -> bool
    ensures { result ≡ begins (codes "device") bytes.now }
{
    bytes.strip_prefix(b"device").is_some_and(ends_word)
}

/// Whether the first word of a line, which may go on behind it, is `device`.
fn is_device_line(bytes: &[u8]) -> bool
    ensures { result ≡ device_line bytes.now }
{
    let spaces = bytes.iter().take_while(|b| is_space(**b)).count();
    begins_device(&bytes[spaces..])
}

/// Whether a line starts at a byte whose first word is `device`.
fn starts_device(job: &[u8], at: usize) -> bool
    requires { at < length job.now }
    ensures { result ≡ starts_device job.now at }
{
    (at == 0 || job[at - 1] == b'\n') && is_device_line(&job[at..])
}

/// How many bytes of a job are its text: those before the first line that begins with `device`.
pub fn text_length(job: &[u8]) -> usize
    ensures exact { result ≡ text_length true job.now }
    ensures within { result ≤ length job.now }
{
    (0..job.len())
        .find(|at| starts_device(job, *at))
        .unwrap_or(job.len())
}
