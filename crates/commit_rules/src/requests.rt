//! The rules of a request, in their order.
ghost use Rattle.std.specs.Prelude.{◌≡◌, ◌+◌, ◌^◌, ◌<◌, ◌≤◌, IfOk, find, map};
ghost use Rattle.std.specs.Option.{option_map, option_or};
ghost use Rattle.helios_model.specs.Ids.{same_version};
ghost use Rattle.helios_model.specs.Request.{accept, asked, clash_refusal, next_id, request, room_refusal, stale_refusal, unless_refused};
ghost use Rattle.node_limits.specs.Limits.{IsAfter};
ghost use Rattle.site_ledger.specs.Ledger.{Base, log_in};
ghost use Rattle.site_node.specs.Node.{HasNodeWithin, HasSoundNode, IsNodeOf, IsSamePlace, clock_in, node_in};
ghost use Rattle.commit_rules.specs.Answers.{Answers, AnswersAt, is_stale_in, stale_reply_in, write_in};

use helios_model::{
    Ask, LAST_READING, MOST_OPEN, Prepare, PutItem, Puts, ReadItem, Record, Reply, Time, TxnId,
    Version, WriteItem, Writes,
};
use node_limits::{asked_is_transaction, own_records_come_after};
use site_ledger::Ledger;
use site_node::SiteNode;
use std::alloc::{AllocError, Global};

fn is_same_version(a: &Version, b: &Version) -> bool
    ensures { result ≡ same_version a.now b.now }
{
    match a {
        Version::Initial => match b {
            Version::Initial => true,
            Version::Of(_) => false,
        },
        Version::Of(first) => match b {
            Version::Initial => false,
            Version::Of(second) => *first == *second,
        },
    }
}

fn is_stale(ledger: &Ledger, read: &ReadItem) -> bool
    ensures { result ≡ is_stale_in ledger.now.store read.now }
{
    let (version, _) = ledger.current(&read.key);
    !is_same_version(&read.version, &version)
}

fn first_stale<'a>(ledger: &Ledger, reads: &'a [ReadItem]) -> Option<&'a ReadItem>
    ensures { option_map (λ r. r.now) result ≡ find (is_stale_in ledger.now.store) reads.now }
{
    reads.iter().find(|r| is_stale(ledger, r))
}

/// Names the current version of the first read that is stale.
fn stale_refusal(ledger: &Ledger, ask: &Ask) -> Result<Option<Reply>, AllocError>
    ensures { IfOk result (λ found. found ≡ stale_reply_in ledger.now.store ask.now.reads) }
{
    match first_stale(ledger, ask.reads().items()) {
        Some(read) => {
            let key = read.key.copy()?;
            let (current, _) = ledger.current(&read.key);
            Ok(Some(Reply::Overwritten { key, current }))
        }
        None => Ok(None),
    }
}

/// Why a request is refused, by the rules of room and of stale reads.
fn early_refusal(node: &SiteNode, ask: &Ask) -> Result<Option<Reply>, AllocError>
    ensures { IfOk result (λ found. (b : Base) → IsNodeOf b node.now → found ≡ option_or (room_refusal (node_in b node.now)) (stale_refusal (log_in b node.now.ledger) ask.now)) }
{
    if node.ledger().own_open() >= MOST_OPEN {
        return Ok(Some(Reply::PoolFull));
    }
    stale_refusal(node.ledger(), ask)
}

fn write_over(ledger: &Ledger, put: PutItem) -> WriteItem
    ensures { result ≡ write_in ledger.now.store put }
{
    let (over, _) = ledger.current(&put.key);
    let PutItem { key, value } = put;
    WriteItem { key, value, over }
}

fn writes_over(alloc: Global, ledger: &Ledger, puts: Puts) -> Result<Vec<WriteItem>, AllocError>
    ensures { IfOk result (λ ws. ws.items ≡ map (write_in ledger.now.store) puts) }
{
    puts.into_items()
        .into_iter()
        .map(|put| write_over(ledger, put))
        .collect(alloc)
}

/// The name that the node gives next.
fn next_name(node: &SiteNode, reading: u64) -> TxnId
    requires { clock_in node.now < 2 ^ 62 }
    ensures name { (b : Base) → result ≡ next_id node.now.plan (node_in b node.now) reading }
    ensures own { result.site ≡ node.now.ledger.site }
    ensures above { clock_in node.now < result.time }
    ensures small { result.time ≤ 2 ^ 62 }
{
    let time = reading.min(LAST_READING).max(node.clock() + 1);
    TxnId {
        site: node.site(),
        time: Time::of(time),
    }
}

/// The transaction that a request becomes.
fn transaction_for(node: &SiteNode, reading: u64, ask: Ask) -> Result<Prepare, AllocError>
    requires clock { clock_in node.now < 2 ^ 62 }
    requires sound { HasSoundNode node.now }
    ensures asked { IfOk result (λ p. (b : Base) → IsNodeOf b node.now → p ≡ asked (log_in b node.now.ledger) (next_id node.now.plan (node_in b node.now) reading) ask) }
    ensures own { IfOk result (λ p. p.id.site ≡ node.now.ledger.site) }
    ensures above { IfOk result (λ p. clock_in node.now < p.id.time) }
    ensures small { IfOk result (λ p. p.id.time ≤ 2 ^ 62) }
{
    asked_is_transaction();
    let id = next_name(node, reading);
    let (reads, puts) = ask.into_parts();
    let writes = Writes::new(writes_over(node.alloc(), node.ledger(), puts)?);
    let transaction = Prepare::of(id, reads, writes);
    Ok(transaction)
}

/// Takes a transaction, commits what can commit, and tells whether it did.
fn accept_asked(node: SiteNode, p: Prepare) -> Result<(SiteNode, Reply), AllocError>
    requires own { p.id.site ≡ node.ledger.site }
    requires within { HasNodeWithin node }
    requires later { clock_in node < p.id.time }
    requires small { p.id.time ≤ 2 ^ 62 }
    ensures answer { IfOk result (λ t. (b : Base) → IsNodeOf b node → IsAfter (log_in b node.ledger) (Record.Prepare p) → AnswersAt b node t.0 t.1 (λ n. accept node.plan n p)) }
    ensures place { IfOk result (λ t. IsSamePlace node t.0) }
{
    let id = p.id();
    let accepted = node.accept(p)?;
    if accepted.ledger().holds(&id) {
        Ok((accepted, Reply::Prepared(id)))
    } else {
        Ok((accepted, Reply::Committed(id)))
    }
}

/// Answers a request that no early rule refuses: by the first conflict, or by taking it.
fn answer_unrefused(node: SiteNode, reading: u64, ask: Ask) -> Result<(SiteNode, Reply), AllocError>
    requires clock { clock_in node < 2 ^ 62 }
    requires within { HasNodeWithin node }
    ensures answer { IfOk result (λ t. Answers node t.0 t.1 (λ n. unless_refused node.plan n (asked n.log (next_id node.plan n reading) ask) (clash_refusal n.log ask))) }
    ensures place { IfOk result (λ t. IsSamePlace node t.0) }
{
    own_records_come_after();
    let p = transaction_for(&node, reading, ask)?;
    match node.ledger().first_conflict(&p) {
        Some(id) => Ok((node, Reply::Conflict(id))),
        None => accept_asked(node, p),
    }
}

/// Answers a request, at a site whose clock is not spent.
pub(crate) fn answer_request(
    node: SiteNode,
    reading: u64,
    ask: Ask,
) -> Result<(SiteNode, Reply), AllocError>
    requires clock { clock_in node < 2 ^ 62 }
    requires within { HasNodeWithin node }
    ensures answer { IfOk result (λ t. Answers node t.0 t.1 (λ n. request node.plan n reading ask)) }
    ensures place { IfOk result (λ t. IsSamePlace node t.0) }
{
    match early_refusal(&node, &ask)? {
        Some(reply) => Ok((node, reply)),
        None => answer_unrefused(node, reading, ask),
    }
}
