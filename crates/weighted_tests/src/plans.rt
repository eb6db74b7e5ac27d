ghost use Rattle.std.specs.Prelude.{◌≡◌, IfOk, length};

use helios_model::Matrix;
use plan_certificate::plan_of;
use rtt_matrix::read_matrix;
use std::alloc::{AllocError, Global};
use std::test::Fail;
use weighted_plan::{
    WeightedVerdict, Weights, check_weighted, print_weighted, read_weights, weigh,
};

// What a text says as a matrix with weights.
fn given(alloc: Global, text: &str) -> Result<(Matrix, Weights), Fail>
    ensures { IfOk result (λ read. length read.1 ≡ length read.0.names) }
{
    let m = read_matrix(alloc, text.as_bytes())?;
    let w = read_weights(alloc, text.as_bytes(), m.count())?;
    Ok((m, w))
}

// The verdict on the weighted plan of a text.
fn verdict(alloc: Global, text: &str) -> Result<WeightedVerdict, Fail> {
    let (m, w) = given(alloc, text)?;
    let (plan, flow) = weigh(alloc, &m, &w)?;
    Ok(check_weighted(&plan, &w, &flow))
}

#[test]
fn weighted_plans_are_printed(rt: HostRuntime) -> Result<(), Fail> {
    let cases = [
        (
            r#"{"names":["A","B"],"rtt":[[0,100],[100,0]],"weights":[1,3]}"#,
            "{\"flow\":[[0,1],[1,2]],\"latency\":[200,0],\"names\":[\"A\",\"B\"],\"rtt\":[[0,100],[100,0]],\"total\":200,\"weights\":[1,3]}\n",
        ),
        (
            r#"{"rtt":[[0,30000,20000],[30000,0,40000],[20000,40000,0]],"names":["A","B","C"],"weights":[1,1,3]}"#,
            "{\"flow\":[[0,0,1],[0,0,1],[1,1,1]],\"latency\":[40000,80000,0],\"names\":[\"A\",\"B\",\"C\"],\"rtt\":[[0,30000,20000],[30000,0,40000],[20000,40000,0]],\"total\":120000,\"weights\":[1,1,3]}\n",
        ),
        (
            r#"{"names":["A"],"rtt":[[0]],"weights":[1000]}"#,
            "{\"flow\":[[1000]],\"latency\":[0],\"names\":[\"A\"],\"rtt\":[[0]],\"total\":0,\"weights\":[1000]}\n",
        ),
        (
            r#"{"names":["A","B"],"rtt":[[0,100],[100,0]],"weights":[1000,1]}"#,
            "{\"flow\":[[999,1],[1,0]],\"latency\":[0,200],\"names\":[\"A\",\"B\"],\"rtt\":[[0,100],[100,0]],\"total\":200,\"weights\":[1000,1]}\n",
        ),
    ];
    for (text, want) in cases {
        let (m, w) = given(rt.alloc(), text)?;
        let (plan, flow) = weigh(rt.alloc(), &m, &w)?;
        let printed = print_weighted(rt.alloc(), &plan, &w, &flow)?;
        assert_eq!(rt; printed.items(), want.as_bytes(), "at {text}");
    }
    Ok(())
}

#[test]
fn verdicts_on_weighted_plans_give_the_least_sum(rt: HostRuntime) -> Result<(), Fail> {
    let cases = [
        (
            r#"{"names":["A","B","C"],"rtt":[[0,100,100],[100,0,0],[100,0,0]],"weights":[1,1000,1000]}"#,
            200,
        ),
        (
            r#"{"names":["A","B","C"],"rtt":[[0,100,100],[100,0,0],[100,0,0]],"weights":[5,3,3]}"#,
            1000,
        ),
        (
            r#"{"names":["A","B"],"rtt":[[0,1000000000],[1000000000,0]],"weights":[1000,1000]}"#,
            2_000_000_000_000,
        ),
    ];
    for (text, total) in cases {
        assert_eq!(rt;
            verdict(rt.alloc(), text)?,
            WeightedVerdict::Optimal(total),
            "at {text}"
        );
    }
    Ok(())
}

// A round trip of two sites that is the same there and back.
fn trip(i: u64, j: u64) -> u64 {
    if i == j {
        return 0;
    }
    let product = i.wrapping_add(1).wrapping_mul(j.wrapping_add(1));
    let sum = i.wrapping_add(j);
    product
        .wrapping_mul(104_729)
        .wrapping_add(sum.wrapping_mul(15_485_863))
        % 1_000_000_007
}

// A weight from 1 to 1000, which is 1000 at the last of 32 sites.
fn load(i: u64) -> u64 {
    if i == 31 {
        return 1000;
    }
    i.wrapping_mul(i)
        .wrapping_mul(331)
        .wrapping_add(i.wrapping_mul(7))
        % 1000
        + 1
}

fn row(alloc: Global, i: u64) -> Result<String, AllocError> {
    let mut text = String::new(alloc);
    for j in 0..32u64 {
        let comma = if j == 0 { "" } else { "," };
        text.push_str(format!(in alloc; "{comma}{}", trip(i, j))?.as_str())?;
    }
    Ok(text)
}

// The text of 32 sites, whose weights are all 1 where the loads are even.
fn many_sites(alloc: Global, is_even: bool) -> Result<String, AllocError> {
    let mut names = String::new(alloc);
    let mut rows = String::new(alloc);
    let mut weights = String::new(alloc);
    for i in 0..32u64 {
        let comma = if i == 0 { "" } else { "," };
        let weight = if is_even { 1 } else { load(i) };
        names.push_str(format!(in alloc; "{comma}\"s{i}\"")?.as_str())?;
        rows.push_str(format!(in alloc; "{comma}[{}]", row(alloc, i)?)?.as_str())?;
        weights.push_str(format!(in alloc; "{comma}{weight}")?.as_str())?;
    }
    format!(in alloc; "{{\"names\":[{names}],\"rtt\":[{rows}],\"weights\":[{weights}]}}")
}

#[test]
fn thirty_two_sites_are_weighed(rt: HostRuntime) -> Result<(), Fail> {
    let text = many_sites(rt.alloc(), false)?;
    let found = verdict(rt.alloc(), text.as_str())?;
    assert_eq!(rt; found, WeightedVerdict::Optimal(8_630_714_439_249));
    Ok(())
}

#[test]
fn even_weights_give_the_total_of_a_plan(rt: HostRuntime) -> Result<(), Fail> {
    let many = many_sites(rt.alloc(), true)?;
    let cases = [
        (
            r#"{"names":["A","B"],"rtt":[[0,100],[100,0]],"weights":[1,1]}"#,
            200,
        ),
        (
            r#"{"names":["A","B","C"],"rtt":[[0,30000,20000],[30000,0,40000],[20000,40000,0]],"weights":[1,1,1]}"#,
            90_000,
        ),
        (many.as_str(), 16_555_677_238),
    ];
    for (text, total) in cases {
        let (m, _) = given(rt.alloc(), text)?;
        let (plan, _) = plan_of(rt.alloc(), &m)?;
        assert_eq!(rt; plan.total(), total);
        assert_eq!(rt; verdict(rt.alloc(), text)?, WeightedVerdict::Optimal(total));
    }
    Ok(())
}
