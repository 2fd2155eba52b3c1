// The tones that a query asks for, as `expect` of the Rust weighs them: the main tone and its
// variants, by their places in the inventory.
#![tactic(auto)]

ghost use Rattle.std.specs.Prelude.{◌≡◌, ◌==◌, IfSome, IfOk, ◌≤◌, ◌<◌, length};
ghost use Rattle.spec_judgement.specs.Asked.{TargetsHeld};
ghost use Rattle.spec_judgement.specs.Target.{variant_weight_good, variant_weights_good, main_weight, variants_good, place_of, target_of, targets_of};

pub use spec_judgement::{Inventory, Target, Targets};

// VARIANT_SUM_SLACK of the Rust.
const VARIANT_SUM_SLACK: f32 = 1e-6;

// Whether a weight is finite and not below 0.
#[tactic(auto, unfolding(spec_judgement::specs::Target::variant_weight_good))]
fn variant_weight_good(w: f32) -> bool
    ensures { result ≡ variant_weight_good w }
{
    tonekit_float::is_finite(w) && 0.0 <= w
}

// Whether the weight of each of n variants is fine.
// Stays: tried as `(0..n).all(..)`; that the runs of its closure are the definition's turns did not close.
fn variant_weights_good(query: &[u8], n: u8) -> bool
    requires { n ≤ 4 }
    ensures { result ≡ variant_weights_good query.now n }
{
    let mut ok = true;
    for i in 0..usize::from(n) {
        ok = ok & variant_weight_good(tonekit_query::variant_weight(query, i));
    }
    ok
}

// What n variants leave to the main tone, in f32; below 0 where they outweigh 1. The query is one
// that loads, so n is at most 4, here and below.
// Stays: as a ghost field of `Query`, `variants ≤ 4` and `count ≤ 1024` would be asked of `fields_of` too, which makes a Query of any bytes.
pub fn main_weight(query: &[u8], n: u8) -> f32
    requires { n ≤ 4 }
    ensures { result ≡ main_weight query.now n }
{
    let mut sum = 0.0;
    for i in 0..usize::from(n) {
        sum = sum + tonekit_query::variant_weight(query, i);
    }
    1.0 - sum
}

// Whether a query's n variants may be judged: no weight below 0 or not finite, and no more than 1 in
// all but for rounding.
#[tactic(auto, unfolding(spec_judgement::specs::Target::variants_good))]
pub fn variants_good(query: &[u8], n: u8) -> bool
    requires { n ≤ 4 }
    ensures { result ≡ variants_good query.now n }
{
    variant_weights_good(query, n) && !(main_weight(query, n) < -VARIANT_SUM_SLACK)
}

// The place of a tone's number among the inventory's, none where it is not held.
#[tactic(auto, unfolding(spec_judgement::specs::Target::place_of))]
pub fn place_of(inventory: &Inventory, n: u8) -> Option<usize>
    ensures { (result ≡ place_of inventory.now n)
        × IfSome result (λ t. (t < length inventory.now.items) × (t < 8)) }
{
    inventory.iter().position(|e| e.number == n)
}

// The target that is the tone of this number, so weighed, if the inventory holds it.
fn target_of(inventory: &Inventory, n: u8, weight: f32) -> Option<Target>
    ensures { (result ≡ target_of inventory.now n weight)
        × IfSome result (λ t. t.place < length inventory.now.items) }
{
    let place = place_of(inventory, n)?;
    Some(Target {
        place: place as u8,
        weight,
    })
}

// The targets of a query that loads, among the inventory's tones: the main tone, with what the
// variants leave to it, and the variants; where one of them is not held, those before it.
pub fn targets_of(
    inventory: &Inventory,
    query: &[u8],
    tone: u8,
    variants: u8,
) -> Result<Targets, Targets>
    requires { variants ≤ 4 }
    ensures { (result ≡ targets_of inventory.now query.now tone variants)
        × IfOk result (λ g. TargetsHeld (length inventory.now.items) g) }
{
    let main = tonekit_float::greater(main_weight(query, variants), 0.0);
    let mut g = Targets::new();
    let Some(first) = target_of(inventory, tone, main) else {
        return Err(g);
    };
    g.push(first);
    for i in 0..usize::from(variants) {
        let variant = tonekit_query::variant_tone(query, i);
        let weight = tonekit_query::variant_weight(query, i);
        let Some(next) = target_of(inventory, variant, weight) else {
            return Err(g);
        };
        g.push(next);
    }
    Ok(g)
}
