// The shortest decimal text of an f32 that reads back to its bits.
// A large number is its 190 lowest decimal digits, the ones first; its unit is 10^-151, in which
// every f32 and every midpoint between two of them is whole.
#![tactic(auto)]

ghost use Rattle.std.specs.Prelude.{◌≡◌, ◌++◌, ◌+◌, ◌-◌, ◌*◌, ◌≤◌, ◌<◌, length, option_map, IfSome};
ghost use Rattle.arrayvec.specs.ArrayString.{array_string_len};
ghost use Rattle.tonekit_decimal.specs.Digits.{digits, mul_add, scaled, at_most, times_all, reads_in, choice_in, search_in};
ghost use Rattle.tonekit_decimal.specs.Text.{lowest, whole_count, figures, number_text, sign_text, special_text};
ghost use Rattle.tonekit_decimal.specs.Decimal.{nearest_of, lower_gap, decimal_of, decimal_text};

use arrayvec::ArrayString;

// A number by its digits.
#[derive(Clone, Copy)]
struct Digits {
    places: [u8; 190],
    ghost size: { length places ≡ 190 },
}

// The value of an f32 between the midpoints to its neighbours, which count where its significand is even.
#[derive(Clone, Copy)]
struct Interval {
    low: Digits,
    value: Digits,
    high: Digits,
    odd: bool,
}

// Puts k times the digits, plus c, in their place; what is carried beyond them is dropped.
fn multiply(digits: &mut [u8], k: u64, c: u64)
    requires { (k ≤ 134217728) × (c ≤ 1) }
    ensures { digits.new ≡ mul_add k c digits.old }
{
    let mut carry = c;
    for digit in digits.iter_mut() {
        let t = k * u64::from(*digit) + carry;
        *digit = (t % 10) as u8;
        carry = t / 10;
    }
}

impl Digits {
    // The number 1.
    fn one() -> Digits
        ensures { result.places ≡ digits 190 1 }
    {
        let mut places = [0u8; 190];
        places[0] = 1;
        Digits { places }
    }

    // k times what stands from place p up, plus c, with p zeros below.
    fn scaled(&self, k: u64, p: usize, c: u64) -> Digits
        requires { (k ≤ 134217728) × (p ≤ 190) × (c ≤ 1) }
        ensures { result.places ≡ scaled k p c self.now.places }
    {
        let mut places = self.places;
        places[..p].fill(0);
        multiply(&mut places[p..], k, c);
        Digits { places }
    }

    // k times the number, n times over.
    fn times(&self, k: u64, n: usize) -> Digits
        requires { k ≤ 134217728 }
        ensures { result.places ≡ times_all k n self.now.places }
    {
        let mut product = *self;
        for i in 0..n {
            product = product.scaled(k, 0, 0);
        }
        product
    }

    // Whether the number is at most another, or less where it must be: the highest digits that differ
    // decide.
    // Stays: the derived order would begin at the lowest digit, and an impl of PartialOrd by hand would be longer than this; `less` tells whether ends are left out.
    fn at_most(&self, other: &Digits, less: bool) -> bool
        ensures { result ≡ at_most less self.now.places other.now.places }
    {
        let order = self.places.iter().rev().cmp(other.places.iter().rev());
        if less { order.is_lt() } else { order.is_le() }
    }

    // How many digits the whole part has: those above its highest that is not 0 are left out.
    fn whole_count(&self) -> usize
        ensures { (result ≡ whole_count self.now.places 39) × (result ≤ 39) }
    {
        let mut count = 1;
        for (k, digit) in self.places[151..].iter().enumerate() {
            if *digit != 0 {
                count = k + 1;
            }
        }
        count
    }

    // The lowest place of the fraction whose digit is not 0.
    fn lowest(&self) -> Option<usize>
        ensures value { result ≡ lowest self.now.places 151 }
        ensures within { IfSome result (λ place. place < 151) }
    {
        self.places[..151].iter().position(|digit| *digit != 0)
    }

    // Adds the characters of the digits below place `end`, the highest first, down to place `low`.
    fn add_figures(&self, text: &mut ArrayString<192>, low: usize, end: usize)
        requires places { (low ≤ end) × (end ≤ 190) }
        requires room { array_string_len text.old + (end - low) ≤ 192 }
        ensures bytes { text.new.bytes ≡ text.old.bytes ++ figures self.now.places low (end - low) }
        ensures len { array_string_len text.new ≡ array_string_len text.old + (end - low) }
    {
        for digit in self.places[low..end].iter().rev() {
            text.push(char::from(b'0' + *digit % 10));
        }
    }

    // Adds the characters of the number.
    fn add_to(&self, text: &mut ArrayString<192>)
        requires { array_string_len text.old ≤ 1 }
        ensures { text.new.bytes ≡ text.old.bytes ++ number_text self.now.places }
    {
        self.add_figures(text, 151, 151 + self.whole_count());
        if let Some(low) = self.lowest() {
            text.push('.');
            self.add_figures(text, low, 151);
        }
    }
}

impl Interval {
    // Whether a number lies in the interval.
    fn holds(&self, d: &Digits) -> bool
        ensures { result ≡ reads_in self.now.low.places self.now.high.places self.now.odd d.now.places }
    {
        self.low.at_most(d, self.odd) && d.at_most(&self.high, self.odd)
    }

    // Of the two multiples of 10^p beside the value the one in the interval, and the nearer where both
    // lie there.
    fn choice(&self, p: usize) -> Option<Digits>
        requires { p ≤ 190 }
        ensures { option_map (λ d. d.places) result ≡ choice_in self.now.low.places self.now.value.places self.now.high.places self.now.odd p }
    {
        let down = self.value.scaled(1, p, 0);
        let up = self.value.scaled(1, p, 1);
        match (self.holds(&down), self.holds(&up)) {
            (true, true) => {
                let twice = self.value.scaled(2, 0, 0);
                let both = self.value.scaled(2, p, 1);
                if twice.at_most(&both, false) {
                    Some(down)
                } else {
                    Some(up)
                }
            }
            (true, false) => Some(down),
            (false, true) => Some(up),
            (false, false) => None,
        }
    }

    // The multiple of the largest power of ten up to 10^189 that lies in the interval; the value where
    // only a multiple of 1 does.
    fn shortest(&self) -> Digits
        ensures { result.places ≡ search_in self.now.low.places self.now.value.places self.now.high.places self.now.odd 189 }
    {
        for p in (1..190).rev() {
            if let Some(found) = self.choice(p) {
                return found;
            }
        }
        self.value
    }
}

// The shortest decimal in the rounding interval of m 2^(e - 150). Its upper end is two quarters of a
// step away, its lower end `below` quarters.
fn shortest(m: u64, e: usize, below: u64) -> Digits
    requires { (m < 16777216) × (1 ≤ e) × (e ≤ 254) }
    ensures { result.places ≡ digits 190 (nearest_of m e below) }
{
    let quarter = Digits::one().times(2, e - 1).times(5, 151);
    let interval = Interval {
        low: quarter.scaled((4 * m).saturating_sub(below), 0, 0),
        value: quarter.scaled(4 * m, 0, 0),
        high: quarter.scaled(4 * m + 2, 0, 0),
        odd: m % 2 == 1,
    };
    interval.shortest()
}

// How many quarters of a step the lower midpoint is away.
#[tactic(auto, unfolding(crate::specs::Decimal::lower_gap))]
fn lower_gap(e: u32, f: u32) -> u64
    ensures { result ≡ lower_gap e f }
{
    if f == 0 && 1 < e { 1 } else { 2 }
}

// The shortest decimal of a finite f32, by its exponent and fraction fields.
fn digits_of(e: u32, f: u32) -> Digits
    requires { (e < 255) × (f < 8388608) }
    ensures { result.places ≡ digits 190 (decimal_of e f) }
{
    let below = lower_gap(e, f);
    if e == 0 {
        return shortest(u64::from(f), 1, below);
    }
    shortest(8388608 + u64::from(f), e as usize, below)
}

// The text of a number and its sign.
// Stays: the sign is the f32's bit, as `sign_text` takes it; a bool would be made of it and turned back for the definition.
#[tactic(auto, unfolding(crate::specs::Text::sign_text))]
fn finite(sign: u32, number: &Digits) -> ArrayString<192>
    ensures { result.bytes ≡ sign_text sign ++ number_text number.now.places }
{
    let mut text = ArrayString::new();
    if sign == 1 {
        text.push('-');
    }
    number.add_to(&mut text);
    text
}

// The text of an infinity or a NaN: f is its fraction field.
// Stays: the sign is a bit, as in `finite`.
#[tactic(auto, unfolding(crate::specs::Text::sign_text, crate::specs::Text::special_text))]
fn not_finite(sign: u32, f: u32) -> ArrayString<192>
    ensures { result.bytes ≡ special_text sign f }
{
    let mut text = ArrayString::new();
    if f != 0 {
        text.push_str("nan");
        return text;
    }
    if sign == 1 {
        text.push('-');
    }
    text.push_str("inf");
    text
}

// The shortest decimal that reads back to an f32, given by its bits.
pub fn decimal(bits: u32) -> ArrayString<192>
    ensures { result.bytes ≡ decimal_text bits }
{
    let sign = bits / 2147483648;
    let e = bits / 8388608 % 256;
    let f = bits % 8388608;
    if e == 255 {
        return not_finite(sign, f);
    }
    finite(sign, &digits_of(e, f))
}
