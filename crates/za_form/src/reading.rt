//! Reading signs from left to right with a stack of open groups and braces.

ghost use Rattle.std.specs.Prelude.{◌≡◌, ◌<◌, ◌≤◌, IfOk, map, reverse, length};
ghost use Rattle.za_expression.specs.Limits.{most_signs};
ghost use Rattle.za_expression.specs.Private.Machine.{
  then_item as item_after,
  or_product as product_after,
  and_unary,
  denied as denied_times,
  sum_of,
  with_item as item_added,
  with_star,
  with_bar,
  layer_step as layer_after,
  form_here as form_ended,
  unary_of as unary_ended,
  step as state_after,
  plain_step as plain_after,
  now_step as now_after,
  ended as form_at_end,
  parsed,
};
ghost use Rattle.za_form.specs.Private.Trees.{tree, tree_option, form, form_option};
ghost use Rattle.za_form.specs.Private.Stacks.{layer_of, layer_option, now_of, now_option};
ghost use Rattle.za_form.specs.Private.Stacks.{frame_of, stack_of, stack_option, IsStackBelow};

use crate::tree::{FormTree, PlainTree};
use std::alloc::{AllocError, Global};
use za_expression::Sign;

/// The expression with one more item behind it.
fn then_item(
    alloc: Global,
    before: Option<PlainTree>,
    item: PlainTree,
) -> Result<PlainTree, AllocError>
    ensures { IfOk result (λ p. tree p ≡ item_after (tree_option before) (tree item)) }
{
    match before {
        None => Ok(item),
        Some(d) => {
            let left = Box::new(alloc, d)?;
            let right = Box::new(alloc, item)?;
            Ok(PlainTree::Sequence(left, right))
        }
    }
}

fn or_product(
    alloc: Global,
    before: Option<PlainTree>,
    product: PlainTree,
) -> Result<PlainTree, AllocError>
    ensures { IfOk result (λ p. tree p ≡ product_after (tree_option before) (tree product)) }
{
    match before {
        None => Ok(product),
        Some(d) => {
            let left = Box::new(alloc, d)?;
            let right = Box::new(alloc, product)?;
            Ok(PlainTree::Or(left, right))
        }
    }
}

/// One level of a plain expression.
#[derive(Drop)]
struct Layer {
    sums: Option<PlainTree>,
    items: Option<PlainTree>,
    last: Option<PlainTree>,
}

/// One level of a form.
#[derive(Drop)]
struct Frame {
    left: Option<FormTree>,
    nots: u64,
}

/// What is read of the unary.
#[derive(Drop)]
enum Now {
    Fresh,
    Plainly(Layer, Vec<Layer>),
    Closed(FormTree),
}

/// The sum that ends here.
fn sum(alloc: Global, layer: Layer) -> Result<Option<PlainTree>, AllocError>
    ensures { IfOk result (λ o. tree_option o ≡ sum_of (layer_of layer)) }
{
    let Layer { sums, items, last } = layer;
    match last {
        None => Ok(None),
        Some(e) => {
            let product = then_item(alloc, items, e)?;
            let whole = or_product(alloc, sums, product)?;
            Ok(Some(whole))
        }
    }
}

fn with_item(alloc: Global, layer: Layer, item: PlainTree) -> Result<Layer, AllocError>
    ensures { IfOk result (λ l. layer_of l ≡ item_added (layer_of layer) (tree item)) }
{
    let Layer { sums, items, last } = layer;
    match last {
        None => Ok(Layer {
            sums,
            items: None,
            last: Some(item),
        }),
        Some(before) => {
            let product = then_item(alloc, items, before)?;
            Ok(Layer {
                sums,
                items: Some(product),
                last: Some(item),
            })
        }
    }
}

fn starred(alloc: Global, layer: Layer) -> Result<Option<Layer>, AllocError>
    ensures { IfOk result (λ o. layer_option o ≡ with_star (layer_of layer)) }
{
    let Layer { sums, items, last } = layer;
    match last {
        None => Ok(None),
        Some(e) => {
            let inner = Box::new(alloc, e)?;
            Ok(Some(Layer {
                sums,
                items,
                last: Some(PlainTree::Star(inner)),
            }))
        }
    }
}

fn barred(alloc: Global, layer: Layer) -> Result<Option<Layer>, AllocError>
    ensures { IfOk result (λ o. layer_option o ≡ with_bar (layer_of layer)) }
{
    match sum(alloc, layer)? {
        None => Ok(None),
        Some(e) => Ok(Some(Layer {
            sums: Some(e),
            items: None,
            last: None,
        })),
    }
}

fn layer_step(
    alloc: Global,
    at: u8,
    layer: Layer,
    groups: Vec<Layer>,
    sign: Sign,
) -> Result<Option<Now>, AllocError>
    ensures { IfOk result (λ o.
        now_option o ≡ layer_after at (layer_of layer) (reverse (map layer_of groups.items)) sign) }
{
    let mut groups = groups;
    match sign {
        Sign::Name(_) => {
            let layer = with_item(alloc, layer, PlainTree::Occurrence(at))?;
            Ok(Some(Now::Plainly(layer, groups)))
        }
        Sign::Empty => {
            let layer = with_item(alloc, layer, PlainTree::One)?;
            Ok(Some(Now::Plainly(layer, groups)))
        }
        Sign::Open => {
            groups.push(layer)?;
            Ok(Some(Now::Plainly(
                Layer {
                    sums: None,
                    items: None,
                    last: None,
                },
                groups,
            )))
        }
        Sign::Close => match groups.pop() {
            None => Ok(None),
            Some(group) => match sum(alloc, layer)? {
                None => Ok(None),
                Some(e) => {
                    let layer = with_item(alloc, group, e)?;
                    Ok(Some(Now::Plainly(layer, groups)))
                }
            },
        },
        Sign::Bar => match barred(alloc, layer)? {
            None => Ok(None),
            Some(layer) => Ok(Some(Now::Plainly(layer, groups))),
        },
        Sign::Times => match starred(alloc, layer)? {
            None => Ok(None),
            Some(layer) => Ok(Some(Now::Plainly(layer, groups))),
        },
        Sign::Begin => Ok(None),
        Sign::End => Ok(None),
        Sign::Ampersand => Ok(None),
        Sign::Bang => Ok(None),
    }
}

fn and_form(alloc: Global, left: Option<FormTree>, right: FormTree) -> Result<FormTree, AllocError>
    ensures { IfOk result (λ f. form f ≡ and_unary (form_option left) (form right)) }
{
    match left {
        None => Ok(right),
        Some(f) => {
            let a = Box::new(alloc, f)?;
            let b = Box::new(alloc, right)?;
            Ok(FormTree::And(a, b))
        }
    }
}

fn denied(alloc: Global, nots: u64, inner: FormTree) -> Result<FormTree, AllocError>
    ensures { IfOk result (λ f. form f ≡ denied_times nots (form inner)) }
{
    let mut whole = inner;
    for _i in 0..nots {
        let inside = Box::new(alloc, whole)?;
        whole = FormTree::Not(inside);
    }
    Ok(whole)
}

/// The unary that ends here.
fn unary(alloc: Global, now: Now) -> Result<Option<FormTree>, AllocError>
    ensures { IfOk result (λ o. form_option o ≡ unary_ended (now_of now)) }
{
    match now {
        Now::Fresh => Ok(None),
        Now::Plainly(layer, groups) => {
            if groups.is_empty() {
                match sum(alloc, layer)? {
                    None => Ok(None),
                    Some(e) => Ok(Some(FormTree::Part(e))),
                }
            } else {
                Ok(None)
            }
        }
        Now::Closed(f) => Ok(Some(f)),
    }
}

/// The form that ends here.
fn ended_form(alloc: Global, now: Now, frame: Frame) -> Result<Option<FormTree>, AllocError>
    ensures { IfOk result (λ o. form_option o ≡ form_ended (now_of now) (frame_of frame)) }
{
    let Frame { left, nots } = frame;
    match unary(alloc, now)? {
        None => Ok(None),
        Some(f) => {
            let whole = denied(alloc, nots, f)?;
            let all = and_form(alloc, left, whole)?;
            Ok(Some(all))
        }
    }
}

#[derive(Drop)]
struct Stack {
    now: Now,
    frame: Frame,
    outer: Vec<Frame>,
}

/// What is read of the unary after one more sign of a plain.
fn now_step(alloc: Global, at: u8, now: Now, sign: Sign) -> Result<Option<Now>, AllocError>
    ensures { IfOk result (λ o. now_option o ≡ now_after at (now_of now) sign) }
{
    match now {
        Now::Fresh => {
            let layer = Layer {
                sums: None,
                items: None,
                last: None,
            };
            layer_step(alloc, at, layer, Vec::new(alloc), sign)
        }
        Now::Plainly(layer, groups) => layer_step(alloc, at, layer, groups, sign),
        Now::Closed(_f) => Ok(None),
    }
}

fn plain_step(alloc: Global, at: u8, state: Stack, sign: Sign) -> Result<Option<Stack>, AllocError>
    ensures { IfOk result (λ o. stack_option o ≡ plain_after at (stack_of state) sign) }
{
    let Stack { now, frame, outer } = state;
    match now_step(alloc, at, now, sign)? {
        None => Ok(None),
        Some(now) => Ok(Some(Stack { now, frame, outer })),
    }
}

fn step(alloc: Global, at: u8, state: Stack, sign: Sign) -> Result<Option<Stack>, AllocError>
    requires { state.frame.nots ≤ most_signs }
    ensures { IfOk result (λ o. stack_option o ≡ state_after at (stack_of state) sign) }
{
    match sign {
        Sign::Bang => {
            let Stack { now, frame, outer } = state;
            match now {
                Now::Fresh => Ok(Some(Stack {
                    now: Now::Fresh,
                    frame: Frame {
                        left: frame.left,
                        nots: frame.nots + 1,
                    },
                    outer,
                })),
                Now::Plainly(_layer, _groups) => Ok(None),
                Now::Closed(_f) => Ok(None),
            }
        }
        Sign::Begin => {
            let Stack { now, frame, outer } = state;
            let mut outer = outer;
            match now {
                Now::Fresh => {
                    outer.push(frame)?;
                    Ok(Some(Stack {
                        now: Now::Fresh,
                        frame: Frame {
                            left: None,
                            nots: 0,
                        },
                        outer,
                    }))
                }
                Now::Plainly(_layer, _groups) => Ok(None),
                Now::Closed(_f) => Ok(None),
            }
        }
        Sign::End => {
            let Stack { now, frame, outer } = state;
            let mut outer = outer;
            match ended_form(alloc, now, frame)? {
                None => Ok(None),
                Some(f) => match outer.pop() {
                    None => Ok(None),
                    Some(frame) => Ok(Some(Stack {
                        now: Now::Closed(f),
                        frame,
                        outer,
                    })),
                },
            }
        }
        Sign::Ampersand => {
            let Stack { now, frame, outer } = state;
            match ended_form(alloc, now, frame)? {
                None => Ok(None),
                Some(f) => Ok(Some(Stack {
                    now: Now::Fresh,
                    frame: Frame {
                        left: Some(f),
                        nots: 0,
                    },
                    outer,
                })),
            }
        }
        Sign::Name(_) => plain_step(alloc, at, state, sign),
        Sign::Empty => plain_step(alloc, at, state, sign),
        Sign::Open => plain_step(alloc, at, state, sign),
        Sign::Close => plain_step(alloc, at, state, sign),
        Sign::Bar => plain_step(alloc, at, state, sign),
        Sign::Times => plain_step(alloc, at, state, sign),
    }
}

/// The form that the text ends with here.
fn ended(alloc: Global, state: Stack) -> Result<Option<FormTree>, AllocError>
    ensures { IfOk result (λ o. form_option o ≡ form_at_end (stack_of state)) }
{
    let Stack { now, frame, outer } = state;
    if outer.is_empty() {
        ended_form(alloc, now, frame)
    } else {
        Ok(None)
    }
}

/// The form that the signs are, and `None` exactly where they are none.
pub(crate) fn tree_of(alloc: Global, signs: &[Sign]) -> Result<Option<FormTree>, AllocError>
    requires { length signs.now ≤ most_signs }
    ensures { IfOk result (λ o. form_option o ≡ parsed signs.now) }
{
    let mut state = Stack {
        now: Now::Fresh,
        frame: Frame {
            left: None,
            nots: 0,
        },
        outer: Vec::new(alloc),
    };
    let mut at = 1u8;
    for sign in signs {
        match step(alloc, at, state, *sign)? {
            None => return Ok(None),
            Some(next) => state = next,
        }
        at += 1;
    }
    ended(alloc, state)
}
