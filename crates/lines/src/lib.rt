// lines: a reply as a line of text in a lent buffer. No line has more than 128 bytes; none is begun with less room.
// A writer stands at a place in the buffer. Each of its methods appends a text, and asks for its longest form's room.
// By hand and not by `Display`, since a contract says each byte.
#![tactic(auto)]

ghost use Rattle.std.specs.Prelude.{◌≡◌, [], ◌∷◌, ◌-◌, ◌<◌, ◌≤◌, length};
ghost use Rattle.std.specs.Prelude.{◌++◌, ◌+◌};
ghost use Rattle.job_policy.specs.Policy.{no_policy};
ghost use Rattle.reply.specs.declared.Fields.TheVariants.{NoFields};
ghost use Rattle.lines.specs.Line.{last_digits, decimal_text, signed_text, flag_text};
ghost use Rattle.lines.specs.Line.{action_char, policy_text, job_text, process_text, thread_text, fields_text};
ghost use Rattle.lines.specs.Line.{field, line_of, stop_line, within, Put};
ghost use Rattle.lines.specs.Writer.{HasRoom, Appends};

use job_policy::{JobPolicy, PolicyCondition};
use reply::{Fields, Shown};

// No line is longer.
pub const LINE: usize = 128;

// What was written ends at `at`.
#[derive(Drop)]
struct Writer<'a> {
    out: &'a mut [u8],
    at: usize,
}

#[tactic(auto, unfolding(crate::specs::Line::action_char))]
fn action_char(found: Option<u8>) -> u8
    ensures { result ≡ action_char found }
{
    match found {
        None => b'-',
        Some(a) => b'0' + a % 10,
    }
}

impl<'a> Writer<'a> {
    #[inline(always)]
    fn byte(&mut self, byte: u8)
        requires { HasRoom self.old 1 }
        ensures { Appends 1 self.old self.new (byte ∷ []) }
    {
        self.out[self.at] = byte;
        self.at += 1;
    }

    fn text(&mut self, text: &[u8])
        requires { HasRoom self.old (length text.now) }
        ensures { Appends (length text.now) self.old self.new text.now }
    {
        let end = self.at + text.len();
        self.out[self.at..end].copy_from_slice(text);
        self.at = end;
    }

    // -- Numbers ---------------------------------------------------------------------------

    // The last N digits, zeros in front too.
    #[inline(always)]
    fn digits<const N: usize>(&mut self, n: u64)
        requires { HasRoom self.old N }
        ensures { Appends N self.old self.new (last_digits N n) }
    {
        // Counted: it goes from the last to the first, and nothing is known of the bytes after `iter_mut().rev()`.
        let mut left = n;
        for i in 0..N {
            self.out[self.at + (N - 1 - i)] = b'0' + (left % 10) as u8;
            left /= 10;
        }
        self.at += N;
    }

    // Below 10^4.
    #[inline(always)]
    fn short(&mut self, n: u64)
        requires { HasRoom self.old 4 × (n < 10000) }
        ensures { Appends 4 self.old self.new (decimal_text n) }
    {
        if n < 10 {
            self.digits::<1>(n)
        } else if n < 100 {
            self.digits::<2>(n)
        } else if n < 1000 {
            self.digits::<3>(n)
        } else {
            self.digits::<4>(n)
        }
    }

    #[inline(always)]
    fn number(&mut self, n: u64)
        requires { HasRoom self.old 20 }
        ensures { Appends 20 self.old self.new (decimal_text n) }
    {
        self.at = put_number(self.out, self.at, n);
    }

    // -- A field: a space and its text -----------------------------------------------------

    #[inline(always)]
    fn flag(&mut self, flag: bool)
        requires { HasRoom self.old 2 }
        ensures { Appends 2 self.old self.new (field (flag_text flag)) }
    {
        self.byte(b' ');
        self.byte(b'0' + flag as u8)
    }

    // Most have one digit, and are written without a call.
    #[inline(always)]
    fn decimal(&mut self, n: u64)
        requires { HasRoom self.old 21 }
        ensures { Appends 21 self.old self.new (field (decimal_text n)) }
    {
        self.byte(b' ');
        if n < 10 {
            return self.digits::<1>(n);
        }
        self.number(n)
    }

    // 0 is by far the commonest answer, and is written by itself.
    #[inline(always)]
    fn signed(&mut self, z: i64)
        requires { HasRoom self.old 22 }
        ensures { Appends 22 self.old self.new (field (signed_text z)) }
    {
        self.byte(b' ');
        if z == 0 {
            return self.byte(b'0');
        }
        if z < 0 {
            self.byte(b'-');
        }
        self.number(z.unsigned_abs())
    }

    #[inline(always)]
    fn policy(&mut self, policy: JobPolicy)
        requires { HasRoom self.old 16 }
        ensures { Appends 16 self.old self.new (field (policy_text policy)) }
    {
        self.byte(b' ');
        // Counted: a condition is a number, and `get_action` says what its entry means.
        for condition in 0..PolicyCondition::COUNT {
            self.byte(action_char(policy.get_action(condition)));
        }
    }

    // -- The fields of a call --------------------------------------------------------------

    #[inline(always)]
    fn job(&mut self, killed: bool, terminated: bool, amount: i64, mode: u8, policy: JobPolicy)
        requires { HasRoom self.old 63 }
        ensures { Appends 63 self.old self.new (job_text killed terminated amount mode policy) }
    {
        self.flag(killed);
        self.flag(terminated);
        self.signed(amount);
        self.decimal(mode as u64);
        self.policy(policy)
    }

    #[inline(always)]
    fn process(&mut self, code: i64, started: bool, exited: bool, debugger: bool, terminated: bool)
        requires { HasRoom self.old 30 }
        ensures { Appends 30 self.old self.new (process_text code started exited debugger terminated) }
    {
        self.signed(code);
        self.flag(started);
        self.flag(exited);
        self.flag(debugger);
        self.flag(terminated)
    }

    #[inline(always)]
    fn thread(&mut self, state: u16, level: u8, suspends: u16)
        requires { HasRoom self.old 63 }
        ensures { Appends 63 self.old self.new (thread_text state level suspends) }
    {
        self.decimal(state as u64);
        self.decimal(level as u64);
        self.decimal(suspends as u64)
    }

    #[inline(always)]
    fn fields(&mut self, fields: Fields, policy: JobPolicy)
        requires { HasRoom self.old 63 }
        ensures { Appends 63 self.old self.new (fields_text fields policy) }
    {
        match fields {
            Fields::NoFields => {}
            Fields::OwnerField(owner) => self.decimal(owner as u64),
            Fields::JobFields {
                killed,
                terminated,
                amount,
                mode,
            } => self.job(killed, terminated, amount, mode, policy),
            Fields::ProcessFields {
                code,
                started,
                exited,
                debugger,
                terminated,
            } => self.process(code, started, exited, debugger, terminated),
            Fields::ThreadFields {
                state,
                level,
                suspends,
            } => self.thread(state, level, suspends),
        }
    }

    // -- A line ----------------------------------------------------------------------------

    // What each line of a call begins with.
    #[inline(always)]
    fn head(&mut self, number: u64, answer: i64)
        requires { HasRoom self.old 42 }
        ensures { Appends 42 self.old self.new
            (decimal_text number ++ field (signed_text answer)) }
    {
        self.number(number);
        self.signed(answer)
    }
}

// The first digits, and then four or eight at a time. It takes a place and no writer, for speed: a writer stays in
// registers only while its address goes to no call.
fn put_number(out: &mut [u8], at: usize, n: u64) -> usize
    requires { at + 20 ≤ length out.old }
    ensures { Put out.old out.new at result (decimal_text n) }
{
    let mut writer = Writer { out, at };
    if n < 10000 {
        writer.short(n);
        return writer.at;
    }
    if n < 100000000 {
        writer.short(n / 10000);
        writer.digits::<4>(n % 10000);
        return writer.at;
    }
    writer.at = put_number(writer.out, at, n / 100000000);
    writer.digits::<8>(n % 100000000);
    writer.at
}

// By a place too, and never inlined, for speed: as a part of put_line each line would read the policy, and not a job's
// alone.
#[inline(never)]
fn put_fields(out: &mut [u8], at: usize, fields: Fields, policy: JobPolicy) -> usize
    requires { at + 63 ≤ length out.old }
    ensures put { Put out.old out.new at result (fields_text fields policy) }
    ensures upper_bound { result ≤ at + 63 }
{
    let mut writer = Writer { out, at };
    writer.fields(fields, policy);
    writer.at
}

// -- What others call: nothing is written where there is no room. By the place, which a caller has anyway

// The line of a call. Most show no field.
pub fn put_line(out: &mut [u8], at: usize, number: u64, shown: Shown) -> usize
    ensures put { Put out.old out.new at result
        (within (length out.old - at) (line_of number shown.answer shown.fields shown.policy)) }
    ensures upper_bound { result ≤ at + 128 }
{
    if let Fields::NoFields = shown.fields {
        return put_answer(out, at, number, shown.answer);
    }
    if out.len().saturating_sub(at) < LINE {
        return at;
    }
    let mut writer = Writer { out, at };
    writer.head(number, shown.answer);
    let head_end = writer.at;
    writer.at = put_fields(writer.out, head_end, shown.fields, shown.policy);
    writer.byte(b'\n');
    writer.at
}

// The line of a call that shows no field.
pub fn put_answer(out: &mut [u8], at: usize, number: u64, answer: i64) -> usize
    ensures put { Put out.old out.new at result
        (within (length out.old - at) (line_of number answer NoFields no_policy)) }
    ensures upper_bound { result ≤ at + 128 }
{
    if out.len().saturating_sub(at) < LINE {
        return at;
    }
    let mut writer = Writer { out, at };
    writer.head(number, answer);
    writer.byte(b'\n');
    writer.at
}

// The line that ends the recording.
pub fn put_stop(out: &mut [u8], at: usize, number: u64) -> usize
    ensures put { Put out.old out.new at result
        (within (length out.old - at) (stop_line number)) }
    ensures upper_bound { result ≤ at + 128 }
{
    if out.len().saturating_sub(at) < LINE {
        return at;
    }
    let mut writer = Writer { out, at };
    writer.number(number);
    writer.text(b" stop\n");
    writer.at
}
