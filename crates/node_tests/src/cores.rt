// The core of a node, through its public calls.
ghost use Rattle.std.specs.Prelude.{◌≡◌, ◌<◌, IfOk, IsTrue};
ghost use Rattle.helios_model.specs.Texts.{IsKey};
ghost use Rattle.helios_model.specs.Plans.{count_of};
ghost use Rattle.helios_model.specs.Spellable.{AreSpellablePuts, IsSpellableAsk, IsSpellableMessage, IsSpellableReply};

use commit_rules::{Core, Outcome, Summary};
use helios_model::{
    Ask, Bytes, Commits, Entry, Input, Key, Matrix, Message, Name, Names, Plan, PutItem, Puts,
    Reads, Records, Reply, SiteId, State, Time, Times, TxnId, Val, Version,
};
use plan_certificate::plan_of;
use std::alloc::{AllocError, Global};
use std::test::Fail;

/// The core of one of two sites.
#[derive(Drop)]
struct Site {
    core: Core,
    number: u8,
    ghost few: { number < 2 },
    ghost two: { count_of core.plan ≡ 2 },
    ghost here: { core.site ≡ number },
}

/// What a step gives beside the core.
#[derive(Drop)]
struct Told {
    reply: Reply,
    added: Records,
    commits: Commits,
}

/// Two sites, 100 microseconds from each other.
fn two_sites(alloc: Global) -> Result<Plan, AllocError>
    ensures { IfOk result (λ plan. count_of plan ≡ 2) }
{
    let first = Name::new(String::from_str(alloc, "A")?);
    let second = Name::new(String::from_str(alloc, "B")?);
    let names = vec![in alloc; first, second]?;
    let trips = vec![in alloc; 0, 100, 100, 0]?;
    let matrix = Matrix::new(Names::new(names), Times::new(trips));
    let (plan, _certificate) = plan_of(alloc, &matrix)?;
    Ok(plan)
}

fn one_site(alloc: Global) -> Result<Plan, AllocError>
    ensures { IfOk result (λ plan. count_of plan ≡ 1) }
{
    let names = vec![in alloc; Name::new(String::from_str(alloc, "A")?)]?;
    let trips = vec![in alloc; 0]?;
    let matrix = Matrix::new(Names::new(names), Times::new(trips));
    let (plan, _certificate) = plan_of(alloc, &matrix)?;
    Ok(plan)
}

fn site_at(alloc: Global, number: u8) -> Result<Site, AllocError>
    requires { number < 2 }
{
    let core = Core::new(alloc, two_sites(alloc)?, SiteId::of(number))?;
    Ok(Site { core, number })
}

fn key(alloc: Global, text: &[u8]) -> Result<Key, Fail>
    ensures { IfOk result (λ key. IsKey key) }
{
    let key = Key::new(Bytes::new(text.to_vec(alloc)?)).ok_or("a key")?;
    let _bytes = key.items();
    Ok(key)
}

#[tactic(auto, using(crate::proofs::OnePut::one_put_is_spellable))]
fn one_put(alloc: Global, put: &[u8]) -> Result<Puts, Fail>
    ensures { IfOk result (λ puts. AreSpellablePuts puts) }
{
    let key = key(alloc, put)?;
    let value = Val::new(Bytes::new(b"v".to_vec(alloc)?)).ok_or("a value")?;
    let _bytes = value.items();
    Ok(Puts::new(vec![in alloc; PutItem { key, value }]?))
}

#[tactic(auto, using(crate::proofs::OnePut::one_put_is_asked))]
fn ask(alloc: Global, put: &[u8]) -> Result<Ask, Fail>
    ensures { IfOk result (λ ask. IsSpellableAsk ask) }
{
    let puts = one_put(alloc, put)?;
    let reads = Reads::new(Vec::new(alloc));
    Ok(Ask::new(reads, puts).ok_or("a request")?)
}

/// Asks for a write of one key.
fn write(alloc: Global, site: Site, reading: u64, put: &[u8]) -> Result<(Site, Told), Fail> {
    let input = Input::Request(ask(alloc, put)?);
    let Site { core, number } = site;
    let Outcome {
        core,
        reply,
        added,
        commits,
    } = core.step(Entry { reading, input })?;
    Ok((
        Site { core, number },
        Told {
            reply,
            added,
            commits,
        },
    ))
}

fn message(reply: Reply) -> Result<Message, Fail>
    requires { IsSpellableReply reply }
    ensures { IfOk result (λ m. IsSpellableMessage m) }
{
    match reply {
        Reply::Sent(m) => Ok(m),
        _ => Err(Fail::from("a message")),
    }
}

/// Pulls a message to the other site.
fn pull(site: Site, reading: u64) -> Result<(Site, Message), Fail>
    ensures { IfOk result (λ pulled. IsSpellableMessage pulled.1) }
{
    let Site { core, number } = site;
    let input = Input::Pull(SiteId::of(1 - number));
    let Outcome { core, reply, .. } = core.step(Entry { reading, input })?;
    Ok((Site { core, number }, message(reply)?))
}

fn is_for(m: &Message, site: u8) -> bool
    ensures count { IsTrue result → m.now.count ≡ 2 }
    ensures site { IsTrue result → m.now.to ≡ site }
{
    m.count == 2 && m.to.number() == site
}

fn for_site(m: Message, site: u8) -> Result<Message, Fail>
    requires { IsSpellableMessage m }
    ensures { IfOk result (λ m. (m.count ≡ 2) × (m.to ≡ site) × IsSpellableMessage m) }
{
    if is_for(&m, site) {
        Ok(m)
    } else {
        Err(Fail::from("a message for this site"))
    }
}

/// Pushes a message at its site.
fn push(site: Site, reading: u64, m: Message) -> Result<(Site, Told), Fail>
    requires { IsSpellableMessage m }
{
    let Site { core, number } = site;
    let input = Input::Push(for_site(m, number)?);
    let Outcome {
        core,
        reply,
        added,
        commits,
    } = core.step(Entry { reading, input })?;
    Ok((
        Site { core, number },
        Told {
            reply,
            added,
            commits,
        },
    ))
}

fn id(site: u8, time: u64) -> TxnId
    requires { site < 2 }
{
    TxnId {
        site: SiteId::of(site),
        time: Time::of(time),
    }
}

fn summary(time: u64, log: u64, pending: u64) -> Summary {
    Summary {
        time: Time::of(time),
        log,
        pending,
    }
}

fn committed(reply: &Reply) -> Option<TxnId> {
    match reply {
        Reply::Committed(id) => Some(*id),
        _ => None,
    }
}

/// What a request at the last reading of a clock comes to at one site.
#[derive(Debug, Drop, PartialEq)]
struct Reached {
    committed: Option<TxnId>,
    added: usize,
    commits: usize,
    written: (Version, usize),
    unwritten: Version,
    state: State,
    summary: Summary,
}

fn last_request(alloc: Global, id: TxnId) -> Result<Reached, Fail> {
    let core = Core::new(alloc, one_site(alloc)?, SiteId::of(0))?;
    let input = Input::Request(ask(alloc, b"x")?);
    let reading = u64::MAX;
    let out = core.step(Entry { reading, input })?;
    let (version, value) = out.core.current(&key(alloc, b"x")?);
    Ok(Reached {
        committed: committed(&out.reply),
        added: out.added.items().len(),
        commits: out.commits.items().len(),
        written: (version, value.len()),
        unwritten: out.core.current(&key(alloc, b"y")?).0,
        state: out.core.status(id),
        summary: out.core.summary(),
    })
}

#[test]
fn a_request_commits_at_one_site(rt: HostRuntime) -> Result<(), Fail> {
    let last = id(0, 4611686018427125760);
    let wanted = Reached {
        committed: Some(last),
        added: 2,
        commits: 1,
        written: (Version::Of(last), 1),
        unwritten: Version::Initial,
        state: State::Committed,
        summary: summary(4611686018427125761, 2, 0),
    };
    assert_eq!(rt; last_request(rt.alloc(), last)?, wanted);
    Ok(())
}

/// What is known of a transaction before a message of the other site and after it, how many commits that brings, and what the site has come to.
fn waited(alloc: Global, id: TxnId) -> Result<(State, State, usize, Summary), Fail> {
    let (first, _) = write(alloc, site_at(alloc, 0)?, 1000, b"x")?;
    let (_, message) = pull(site_at(alloc, 1)?, 2000)?;
    let before = first.core.status(id);
    let (first, told) = push(first, 1500, message)?;
    let commits = told.commits.items().len();
    Ok((before, first.core.status(id), commits, first.core.summary()))
}

#[test]
fn a_push_commits_what_waited(rt: HostRuntime) -> Result<(), Fail> {
    let wanted = (State::Pending, State::Committed, 1, summary(1501, 2, 0));
    assert_eq!(rt; waited(rt.alloc(), id(0, 1000))?, wanted);
    Ok(())
}

/// Asks for as many writes of different keys, all at one reading.
fn many_writes(alloc: Global, site: Site, count: u8) -> Result<Site, Fail>
    requires { count < 100 }
{
    let mut site = site;
    for k in 0..count {
        let put = [b'k', b'0' + k / 10, b'0' + k % 10];
        site = write(alloc, site, 1000, &put)?.0;
    }
    Ok(site)
}

/// How many records a message of a site with 70 transactions has, its cover, and what the site has come to.
fn covered(alloc: Global) -> Result<(usize, Vec<u64>, Summary), Fail> {
    let site = many_writes(alloc, site_at(alloc, 0)?, 70)?;
    let (site, message) = pull(site, 1000)?;
    let cover = message.cover.items().to_vec(alloc)?;
    Ok((message.records.items().len(), cover, site.core.summary()))
}

#[test]
fn a_message_covers_up_to_what_it_leaves_off(rt: HostRuntime) -> Result<(), Fail> {
    let alloc = rt.alloc();
    let wanted = (64, vec![in alloc; 1063, 0]?, summary(1069, 70, 70));
    assert_eq!(rt; covered(alloc)?, wanted);
    Ok(())
}
