// Weighted plans through `run`.
use crate::runs::run_over;
use std::test::Fail;

/// Two sites with these weights.
const PAIR: &str = r#"{"names":["A","B"],"rtt":[[0,100],[100,0]],"weights":[1,3]}"#;

const WEIGHED_PAIR: &str =
    "{\"flow\":[[0,1],[1,2]],\"latency\":[200,0],\"names\":[\"A\",\"B\"],\"rtt\":[[0,100],[100,0]],\"total\":200,\"weights\":[1,3]}\n";

/// One site with a thousand times the load of the other.
const UNLIKE: &str = r#"{"names":["A","B"],"rtt":[[0,100],[100,0]],"weights":[1000,1]}"#;

const WEIGHED_UNLIKE: &str =
    "{\"flow\":[[999,1],[1,0]],\"latency\":[0,200],\"names\":[\"A\",\"B\"],\"rtt\":[[0,100],[100,0]],\"total\":200,\"weights\":[1000,1]}\n";

/// Three sites, the last with three times the load of the others.
const THREE: &str =
    r#"{"weights":[1,1,3],"rtt":[[0,30000,20000],[30000,0,40000],[20000,40000,0]],"names":["A","B","C"]}"#;

const WEIGHED_THREE: &str =
    "{\"flow\":[[0,0,1],[0,0,1],[1,1,1]],\"latency\":[40000,80000,0],\"names\":[\"A\",\"B\",\"C\"],\"rtt\":[[0,30000,20000],[30000,0,40000],[20000,40000,0]],\"total\":120000,\"weights\":[1,1,3]}\n";

#[test]
fn weighs_each_matrix(rt: HostRuntime) -> Result<(), Fail> {
    let cases = [
        (PAIR, 0, WEIGHED_PAIR),
        (UNLIKE, 0, WEIGHED_UNLIKE),
        (THREE, 0, WEIGHED_THREE),
        // The matrix is read first.
        ("[", 5, "refused not-json\n"),
        (
            r#"{"names":["A"],"rtt":[[1]],"weights":[0]}"#,
            5,
            "refused diagonal 0\n",
        ),
        (r#"{"names":["A"],"rtt":[[0]]}"#, 5, "refused bad-weights\n"),
        (
            r#"{"names":["A"],"rtt":[[0]],"weights":[0]}"#,
            5,
            "refused bad-weights\n",
        ),
        (
            r#"{"names":["A"],"rtt":[[0]],"weights":[1001]}"#,
            5,
            "refused bad-weights\n",
        ),
        (
            r#"{"names":["A"],"rtt":[[0]],"weights":[1,1]}"#,
            5,
            "refused bad-weights\n",
        ),
        (
            r#"{"names":["A"],"rtt":[[0]],"weights":[1.0]}"#,
            5,
            "refused bad-weights\n",
        ),
    ];
    for (input, status, text) in cases {
        let input = input.as_bytes().to_vec(rt.alloc())?;
        let got = run_over(rt.alloc(), &["weigh"], input, 1000, &[], &[])?;
        assert_eq!(rt; got.written.as_slice(), text.as_bytes(), "{text}");
        assert_eq!(rt; got.status, status);
        assert_eq!(rt; got.left, 0);
    }
    Ok(())
}
