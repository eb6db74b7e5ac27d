use helios_model::{Matrix, Name, Names, Times, first_short};
use latency_assign::assign;
use plan_certificate::{Verdict, check, plan_of};
use std::alloc::{AllocError, Global};
use std::test::Fail;

fn two_sites(alloc: Global) -> Result<Matrix, AllocError> {
    let first = Name::new(String::from_str(alloc, "A")?);
    let second = Name::new(String::from_str(alloc, "B")?);
    let names = vec![in alloc; first, second]?;
    let trips = vec![in alloc; 0, 100, 100, 0]?;
    Ok(Matrix::new(Names::new(names), Times::new(trips)))
}

#[test]
fn two_sites_are_partners(rt: HostRuntime) -> Result<(), Fail> {
    let alloc = rt.alloc();
    let potentials = assign(alloc, &two_sites(alloc)?)?;
    assert_eq!(rt; potentials.s.items(), [1, 0].as_slice());
    let both = potentials
        .u
        .items()
        .iter()
        .zip(potentials.v.items().iter().rev());
    assert!(rt;
        both.map(|(u, v)| u.saturating_add(*v))
            .all(|reached| reached == 100)
    );
    assert_eq!(rt; potentials.u.into_items().len(), 2);
    Ok(())
}

#[test]
fn the_plan_of_two_sites_is_optimal(rt: HostRuntime) -> Result<(), Fail> {
    let (plan, certificate) = plan_of(rt.alloc(), &two_sites(rt.alloc())?)?;
    assert_eq!(rt;
        plan.latencies()
            .items()
            .iter()
            .copied()
            .fold(0, u64::wrapping_add),
        200
    );
    assert_eq!(rt; plan.trips().items(), [0, 100, 100, 0].as_slice());
    assert_eq!(rt; plan.total(), 200);
    assert!(rt; first_short(&plan).is_none());
    assert_eq!(rt; check(&plan, &certificate), Verdict::Optimal(200));
    Ok(())
}
