use commit_offsets::read_plan;
use helios_model::{Plan, SiteId};
use std::alloc::{AllocError, Global};
use std::test::Fail;
use weighted_plan::{Flow, WeightedVerdict, Weights, check_weighted};

const UNEVEN: &str =
    r#"{"latency":[0,200],"names":["A","B"],"offset":[[0,-100],[100,0]],"pair":[1,0],"rtt":[[0,100],[100,0]],"total":200,"version":1}"#;

const SHORT: &str =
    r#"{"latency":[0,100],"names":["A","B"],"offset":[[0,-100],[0,0]],"pair":[1,0],"rtt":[[0,100],[100,0]],"total":100,"version":1}"#;

// The verdict on a plan with these weights and this flow, where there are as many as the sites ask for.
fn verdict(
    alloc: Global,
    plan: &Plan,
    weights: [u64; 2],
    flow: [u64; 4],
) -> Result<Option<WeightedVerdict>, AllocError> {
    let Some(weights) = Weights::new(Vec::from_array(alloc, weights)?) else {
        return Ok(None);
    };
    let Some(flow) = Flow::new(Vec::from_array(alloc, flow)?) else {
        return Ok(None);
    };
    let count = plan.count() as usize;
    if weights.items().len() != count || flow.items().len() != count * count {
        return Ok(None);
    }
    Ok(Some(check_weighted(plan, &weights, &flow)))
}

#[test]
fn a_plan_with_weights_and_a_flow_is_judged(rt: HostRuntime) -> Result<(), Fail> {
    let cases = [
        (UNEVEN, [3, 1], [2, 1, 1, 0], WeightedVerdict::Optimal(200)),
        (
            UNEVEN,
            [1, 3],
            [0, 1, 1, 2],
            WeightedVerdict::ValueDiffers(600, 200),
        ),
        (UNEVEN, [3, 1], [2, 1, 1, 1], WeightedVerdict::BadFlow(1)),
        (UNEVEN, [3, 1], [3, 1, 1, 0], WeightedVerdict::BadFlow(0)),
        (UNEVEN, [3, 1], [2, 1, 0, 1], WeightedVerdict::BadFlow(0)),
        (UNEVEN, [3, 1], [3, 0, 0, 0], WeightedVerdict::BadFlow(1)),
        (
            SHORT,
            [3, 1],
            [3, 1, 1, 0],
            WeightedVerdict::Short(SiteId::of(0), SiteId::of(1)),
        ),
    ];
    for (text, weights, flow, want) in cases {
        let (plan, _) = read_plan(rt.alloc(), text.as_bytes())?;
        assert_eq!(rt; verdict(rt.alloc(), &plan, weights, flow)?, Some(want));
    }
    Ok(())
}
