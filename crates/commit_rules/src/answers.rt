//! The answer to an input, by its rule.
ghost use Rattle.std.specs.Prelude.{◌≡◌, ◌<◌, IfOk};
ghost use Rattle.helios_model.specs.Spellable.{IsMessageOf};
ghost use Rattle.helios_model.specs.Plans.{count_of};
ghost use Rattle.helios_model.specs.Node.{is_spent};
ghost use Rattle.helios_model.specs.Step.{MayBeAsked, by_clock, get, step};
ghost use Rattle.site_ledger.specs.Ledger.{Base};
ghost use Rattle.site_node.specs.Node.{HasNodeWithin, HasSoundNode, IsNodeOf, IsSamePlace, node_in};
ghost use Rattle.commit_rules.specs.Answers.{Answers, Moves};

use crate::requests::answer_request;
use helios_model::{Ask, Bytes, Entry, Input, Key, Message, Reply, SiteId, Val};
use node_limits::each_current_value_is_a_value;
use site_node::SiteNode;
use std::alloc::AllocError;

fn answer_get(node: &SiteNode, key: &Key) -> Result<Reply, AllocError>
    requires { HasSoundNode node.now }
    ensures { IfOk result (λ reply. (b : Base) → IsNodeOf b node.now → get (node_in b node.now) key.now ≡ record { reply = reply; node = node_in b node.now }) }
{
    each_current_value_is_a_value();
    let (version, value) = node.ledger().current(key);
    let value = Val::of(Bytes::new(Vec::from_slice(node.alloc(), value)?));
    let reply = Reply::Value { version, value };
    Ok(reply)
}

fn unless_spent_request(
    node: SiteNode,
    reading: u64,
    ask: Ask,
) -> Result<(SiteNode, Reply), AllocError>
    requires { HasNodeWithin node }
    ensures answer { IfOk result (λ t. Answers node t.0 t.1 (λ n. by_clock node.plan n reading (Input.Request ask) (is_spent node.plan n))) }
    ensures place { IfOk result (λ t. IsSamePlace node t.0) }
{
    if node.is_spent() {
        return Ok((node, Reply::ClockSpent));
    }
    answer_request(node, reading, ask)
}

fn unless_spent_pull(
    node: SiteNode,
    reading: u64,
    to: SiteId,
) -> Result<(SiteNode, Reply), AllocError>
    requires { to < count_of node.plan }
    ensures answer { IfOk result (λ t. Answers node t.0 t.1 (λ n. by_clock node.plan n reading (Input.Pull to) (is_spent node.plan n))) }
    ensures place { IfOk result (λ t. IsSamePlace node t.0) }
{
    if node.is_spent() {
        return Ok((node, Reply::ClockSpent));
    }
    let (advanced, message) = node.pull(reading, to)?;
    Ok((advanced, Reply::Sent(message)))
}

fn unless_spent_push(
    node: SiteNode,
    reading: u64,
    m: Message,
) -> Result<(SiteNode, Reply), AllocError>
    requires sound { HasSoundNode node }
    requires message { IsMessageOf (count_of node.plan) m }
    ensures answer { IfOk result (λ t. Answers node t.0 t.1 (λ n. by_clock node.plan n reading (Input.Push m) (is_spent node.plan n))) }
    ensures place { IfOk result (λ t. IsSamePlace node t.0) }
{
    if node.is_spent() {
        return Ok((node, Reply::ClockSpent));
    }
    let pushed = node.push(reading, m)?;
    Ok((pushed, Reply::Taken))
}

/// Takes the node one step: the answer to an input, by the rules.
pub(crate) fn answer(node: SiteNode, entry: Entry) -> Result<(SiteNode, Reply), AllocError>
    requires within { HasNodeWithin node }
    requires may { MayBeAsked node.plan node.ledger.site entry.input }
    ensures answer { IfOk result (λ t. Answers node t.0 t.1 (λ n. step node.plan n entry)) }
    ensures place { IfOk result (λ t. IsSamePlace node t.0) }
{
    let Entry { reading, input } = entry;
    match input {
        Input::Get(key) => {
            let reply = answer_get(&node, &key)?;
            Ok((node, reply))
        }
        Input::Status(id) => {
            let reply = Reply::State(node.ledger().status(&id));
            Ok((node, reply))
        }
        Input::Request(ask) => unless_spent_request(node, reading, ask),
        Input::Pull(to) => unless_spent_pull(node, reading, to),
        Input::Push(m) => unless_spent_push(node, reading, m),
    }
}

/// Takes the node one step, by the rules, whose answer nobody waits for: no message is made.
pub(crate) fn redo(node: SiteNode, entry: Entry) -> Result<SiteNode, AllocError>
    requires within { HasNodeWithin node }
    requires may { MayBeAsked node.plan node.ledger.site entry.input }
    ensures moves { IfOk result (λ after. Moves node after (λ n. step node.plan n entry)) }
    ensures place { IfOk result (λ after. IsSamePlace node after) }
{
    let Input::Pull(_) = entry.input else {
        let (after, _) = answer(node, entry)?;
        return Ok(after);
    };
    if node.is_spent() {
        return Ok(node);
    }
    let mut advanced = node;
    advanced.advance(entry.reading);
    Ok(advanced)
}
