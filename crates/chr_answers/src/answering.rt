//! Command lines answered one after another.
ghost use Rattle.std.specs.Prelude.{◌≡◌, ◌<◌, ◌≤◌, ◌++◌, IfOk, OnOk, string_bytes};
ghost use Rattle.std.specs.Bool.{OnTrue, OnFalse};
ghost use Rattle.chr_base.specs.Programs.{declarations, rules_of};
ghost use Rattle.chr_answers.specs.working.Obeying.{AddsReply};
ghost use Rattle.chr_answers.specs.Answered.{AnswersLine, AnswersRest};
ghost use Rattle.chr_answers.specs.Lines.{HasNoFeed, last_bytes, lines};
ghost use Rattle.chr_answers.specs.Continuing.{AnswersLines, GoesOn};
ghost use Rattle.chr_answers.specs.Ahead.{IsAhead};
ghost use Rattle.chr_answers.specs.Gathered.{AreTells};
ghost use Rattle.chr_answers.specs.working.Obeying.{IsReadyFor};
ghost use Rattle.chr_answers.specs.working.ReplyTexts.{told_lines};
ghost use Rattle.chr_answers.specs.Requests.{FitsProgram};
ghost use Rattle.chr_answers.specs.Services.{held, served, IsBetweenLines};

use crate::ahead::Ahead;
use crate::lines::{first_of_last, last_bytes, without_return};
use crate::reply::push_reply;
use crate::request::{Request, request_of};
use crate::service::Service;
use crate::tells::Tells;
use chr_json::is_blank;
use std::alloc::{AllocError, Global};
use std::mem::forget;
use std::sync::Wait;
use std::thread::Threads;

/// Answers what is asked for by a reply. A replica that is to show its pool has been rested.
fn answer_by_reply<R: Threads + Wait + Sync>(
    rt: &R,
    alloc: Global,
    service: &mut Service,
    request: Request,
    out: &mut String,
) -> Result<(), AllocError>
    requires ready { IsBetweenLines service.old }
    requires fits { FitsProgram (served service.old) request }
    requires rests { IsReadyFor service.old request }
    ensures ready { OnOk result (IsBetweenLines service.new) }
    ensures program { service.new.world.accepted ≡ service.old.world.accepted }
    ensures answer { OnOk result (AddsReply (declarations (served service.old)) (rules_of (served service.old))
        (held service.old) request (string_bytes out.old) (held service.new) (string_bytes out.new)) }
{
    let reply = service.obey(rt, alloc, request)?;
    push_reply(alloc, out, service.program(), &reply)
}

/// Rests a replica's pool and shows it, from its rows where that can be.
fn answer_show<R: Threads + Wait + Sync>(
    rt: &R,
    alloc: Global,
    service: &mut Service,
    replica: u64,
    out: &mut String,
) -> Result<(), AllocError>
    requires { IsBetweenLines service.old }
    ensures ready { OnOk result (IsBetweenLines service.new) }
    ensures program { service.new.world.accepted ≡ service.old.world.accepted }
    ensures answer { OnOk result (AddsReply (declarations (served service.old)) (rules_of (served service.old))
        (held service.old) (Request.Show replica) (string_bytes out.old) (held service.new) (string_bytes out.new)) }
{
    service.settle(rt, alloc, replica)?;
    if service.push_pool(rt, alloc, replica, out)? {
        return out.push_str("\n");
    }
    answer_by_reply(rt, alloc, service, Request::Show(replica), out)
}

/// Answers what is asked for.
fn answer_request<R: Threads + Wait + Sync>(
    rt: &R,
    alloc: Global,
    service: &mut Service,
    request: Request,
    out: &mut String,
) -> Result<(), AllocError>
    requires ready { IsBetweenLines service.old }
    requires fits { FitsProgram (served service.old) request }
    ensures ready { OnOk result (IsBetweenLines service.new) }
    ensures program { service.new.world.accepted ≡ service.old.world.accepted }
    ensures answer { OnOk result (AddsReply (declarations (served service.old)) (rules_of (served service.old))
        (held service.old) request (string_bytes out.old) (held service.new) (string_bytes out.new)) }
{
    match request {
        Request::Show(replica) => answer_show(rt, alloc, service, replica, out),
        request => answer_by_reply(rt, alloc, service, request, out),
    }
}

/// Answers a line, which comes without its end, unless it is blank.
pub fn answer_line<R: Threads + Wait + Sync>(
    rt: &R,
    alloc: Global,
    service: &mut Service,
    line: &[u8],
    out: &mut String,
) -> Result<(), AllocError>
    requires { IsBetweenLines service.old }
    ensures ready { OnOk result (IsBetweenLines service.new) }
    ensures program { service.new.world.accepted ≡ service.old.world.accepted }
    ensures answer { OnOk result (AnswersLine (declarations (served service.old)) (rules_of (served service.old))
        (held service.old) line.now (string_bytes out.old) (held service.new) (string_bytes out.new)) }
{
    if is_blank(line) {
        return Ok(());
    }
    let request = request_of(alloc, service.program(), line)?;
    answer_request(rt, alloc, service, request, out)
}

/// Lines of a text that are being answered.
#[derive(Drop)]
pub struct Answering {
    /// By whom.
    pub service: Service,
    /// What has been written.
    pub out: String,
    /// How many bytes of the text are left.
    pub left: usize,
}

/// Writes `count` answers of operations that were new.
fn push_told(out: &mut String, count: usize) -> Result<(), AllocError>
    ensures { OnOk result (string_bytes out.new ≡ string_bytes out.old ++ told_lines count) }
{
    for _line in 0..count {
        out.push_str("told\n")?;
    }
    Ok(())
}

/// Answers tells that were rested, where all of them can be told. Else none is, and it is false.
fn answer_tells<R: Threads + Wait + Sync>(
    rt: &R,
    alloc: Global,
    text: &[u8],
    at: &mut Answering,
    tells: &Tells,
) -> Result<bool, AllocError>
    requires ready { IsBetweenLines at.old.service }
    requires tells { AreTells (served at.old.service) text.now tells.now }
    requires first { tells.now.left ≡ at.old.left }
    ensures goes { OnOk result (GoesOn text.now at.old at.new) }
    ensures shorter { IfOk result (λ answered. OnTrue answered (at.new.left < at.old.left)) }
    ensures left { IfOk result (λ answered. OnFalse answered (at.new.left ≡ at.old.left)) }
{
    if !at.service.tell_rested(rt, alloc, tells)? {
        return Ok(false);
    }
    push_told(&mut at.out, tells.ops.len())?;
    at.left = tells.more;
    Ok(true)
}

/// Answers the tells that come next, where they were rested before their turn. Else none is, and it is false.
fn answer_ahead<R: Threads + Wait + Sync>(
    rt: &R,
    alloc: Global,
    text: &[u8],
    at: &mut Answering,
    ahead: &mut Ahead,
) -> Result<bool, AllocError>
    requires ready { IsBetweenLines at.old.service }
    requires ahead { IsAhead (served at.old.service) text.now ahead.old }
    ensures ahead { IsAhead (served at.old.service) text.now ahead.new }
    ensures goes { OnOk result (GoesOn text.now at.old at.new) }
    ensures shorter { IfOk result (λ answered. OnTrue answered (at.new.left < at.old.left)) }
    ensures left { IfOk result (λ answered. OnFalse answered (at.new.left ≡ at.old.left)) }
{
    match ahead.tells(at.left) {
        Some(tells) => answer_tells(rt, alloc, text, at, &tells),
        None => Ok(false),
    }
}

/// Answers the first line that is left, which may have been read before its turn. False where no line ends in what is
/// left.
fn answer_first<R: Threads + Wait + Sync>(
    rt: &R,
    alloc: Global,
    text: &[u8],
    at: &mut Answering,
    ahead: &mut Ahead,
) -> Result<bool, AllocError>
    requires ready { IsBetweenLines at.old.service }
    requires ahead { IsAhead (served at.old.service) text.now ahead.old }
    ensures ahead { IsAhead (served at.old.service) text.now ahead.new }
    ensures answered { IfOk result (λ answered. OnTrue answered (GoesOn text.now at.old at.new)) }
    ensures shorter { IfOk result (λ answered. OnTrue answered (at.new.left < at.old.left)) }
    ensures same { IfOk result (λ answered. OnFalse answered (at.new ≡ at.old)) }
    ensures none { IfOk result (λ answered. OnFalse answered (HasNoFeed (last_bytes at.new.left text.now))) }
{
    if let Some((request, more)) = ahead.request(at.left) {
        answer_request(rt, alloc, &mut at.service, request, &mut at.out)?;
        at.left = more;
        return Ok(true);
    }
    let Some((line, more)) = first_of_last(text, at.left) else {
        return Ok(false);
    };
    let line = without_return(line);
    answer_line(rt, alloc, &mut at.service, line, &mut at.out)?;
    at.left = more;
    Ok(true)
}

/// Answers the tells that come next, where they were rested before their turn, and else the first line that is left.
/// False where no line ends in what is left.
fn answer_next<R: Threads + Wait + Sync>(
    rt: &R,
    alloc: Global,
    text: &[u8],
    at: &mut Answering,
    ahead: &mut Ahead,
) -> Result<bool, AllocError>
    requires ready { IsBetweenLines at.old.service }
    requires ahead { IsAhead (served at.old.service) text.now ahead.old }
    ensures ahead { OnOk result (IsAhead (served at.old.service) text.now ahead.new) }
    ensures goes { OnOk result (GoesOn text.now at.old at.new) }
    ensures shorter { IfOk result (λ answered. OnTrue answered (at.new.left < at.old.left)) }
    ensures left { IfOk result (λ answered. OnFalse answered (at.new.left ≡ at.old.left)) }
    ensures none { IfOk result (λ answered. OnFalse answered (HasNoFeed (last_bytes at.new.left text.now))) }
{
    if answer_ahead(rt, alloc, text, at, ahead)? {
        return Ok(true);
    }
    answer_first(rt, alloc, text, at, ahead)
}

/// Answers the lines that end in a text, some of which may have been read before their turn.
pub fn answer_lines<R: Threads + Wait + Sync>(
    rt: &R,
    alloc: Global,
    text: &[u8],
    at: Answering,
    ahead: Ahead,
) -> Result<Answering, AllocError>
    requires ready { IsBetweenLines at.service }
    requires ahead { IsAhead (served at.service) text.now ahead }
    ensures { IfOk result (AnswersLines text.now at) }
{
    let Answering { service, out, .. } = at;
    let mut at = Answering {
        service,
        out,
        left: text.len(),
    };
    let mut ahead = ahead;
    let mut answered = true;
    while answered {
        answered = answer_next(rt, alloc, text, &mut at, &mut ahead)?;
    }
    Ok(at)
}

/// Answers all lines of a text: those that end in it, and what comes after them as one more.
pub fn answer_all<R: Threads + Wait + Sync>(
    rt: &R,
    alloc: Global,
    text: &[u8],
    at: Answering,
    ahead: Ahead,
) -> Result<String, AllocError>
    requires ready { IsBetweenLines at.service }
    requires ahead { IsAhead (served at.service) text.now ahead }
    ensures { IfOk result (λ out. AnswersRest (declarations (served at.service)) (rules_of (served at.service))
        (lines text.now) (held at.service) (string_bytes at.out) (string_bytes out)) }
{
    let mut at = answer_lines(rt, alloc, text, at, ahead)?;
    let line = without_return(last_bytes(text, at.left));
    answer_line(rt, alloc, &mut at.service, line, &mut at.out)?;
    let Answering { service, out, .. } = at;
    forget(service);
    Ok(out)
}
