ghost use Rattle.std.specs.Prelude.{◌≡◌, ◌++◌, IfOk, MatchResult, Ok};
ghost use Rattle.gp_routes.specs.Parts.{condition_named, route_to};
ghost use Rattle.gp_routes.specs.Files.{line_read, rules_read, AreRulesOf, IsFaultOf, IsRouteFault};

use crate::part::{split_condition, split_route};
use crate::route::{Condition, Route, RouteFault, RouteKind, Routes, Rule};
use crate::word::{cut_line, next_word, without_comment};
use gp_plain::{Address, Body, List};
use std::alloc::{AllocError, Global};

/// Reads a routes file. Lines end with a line feed, with or without a carriage return before it; the last line may
/// lack it. `#` begins a comment. A line with no word is skipped; else it is `CONDITION TARGET`, parted by spaces and
/// tabs. CONDITION is `*` or a host, then optionally `,path_beg=` and a path that begins with `/`. TARGET is
/// `HOST:PORT`, then optionally `,over_http`. The file is refused at its first line with a fault.
pub fn read_routes(alloc: Global, bytes: &[u8]) -> Result<Routes, RouteFault>
    ensures { MatchResult result (AreRulesOf bytes.now) (IsRouteFault bytes.now) }
{
    let mut rules = Vec::new(alloc);
    let mut rest = bytes;
    let mut number = 1u32;
    while !rest.is_empty() {
        let (line, after) = cut_line(rest);
        let rule = read_line(alloc, line, number)?;
        add_rule(&mut rules, rule)?;
        rest = after;
        number = number.saturating_add(1);
    }
    Ok(Routes {
        rules: List::from_vec(rules),
    })
}

/// Adds the rule of a line, where it has one.
fn add_rule(rules: &mut Vec<Rule>, rule: Option<Rule>) -> Result<(), AllocError>
    ensures { IfOk result (λ _. rules.new.items ≡ rules.old.items ++ rules_read (Ok rule)) }
{
    if let Some(rule) = rule {
        rules.push(rule)?;
    }
    Ok(())
}

/// The rule of a line, or nothing where it has no word.
fn read_line(alloc: Global, line: &[u8], number: u32) -> Result<Option<Rule>, RouteFault>
    ensures { MatchResult result (λ rule. line_read line.now ≡ Ok rule) (IsFaultOf (line_read line.now) number) }
{
    let fault = |kind| RouteFault::Line { line: number, kind };
    let Some((condition, rest)) = next_word(without_comment(line)) else {
        return Ok(None);
    };
    let Some((target, rest)) = next_word(rest) else {
        return Err(fault(RouteKind::NoTarget));
    };
    let Some((name, path)) = split_condition(condition) else {
        return Err(fault(RouteKind::Condition));
    };
    let Some((host, port, over_http)) = split_route(target) else {
        return Err(fault(RouteKind::Target));
    };
    if next_word(rest).is_some() {
        return Err(fault(RouteKind::Extra));
    }
    let condition = make_condition(alloc, name, path)?;
    let route = make_route(alloc, host, port, over_http)?;
    Ok(Some(Rule { condition, route }))
}

fn make_condition(alloc: Global, name: &[u8], path: &[u8]) -> Result<Condition, AllocError>
    ensures { IfOk result (λ condition. condition ≡ condition_named name.now path.now) }
{
    let host = if name == b"*".as_slice() {
        None
    } else {
        Some(Body::new(alloc, name)?)
    };
    Ok(Condition {
        host,
        path: Body::new(alloc, path)?,
    })
}

fn make_route(alloc: Global, host: &[u8], port: u16, over_http: bool) -> Result<Route, AllocError>
    ensures { IfOk result (λ route. route ≡ route_to host.now port over_http) }
{
    Ok(Route {
        address: Address {
            host: Body::new(alloc, host)?,
            port,
        },
        over_http,
    })
}
