use std::test::Fail;
use weighted_plan::{Flow, Weights, read_weights};

#[test]
fn texts_are_read_or_refused(rt: HostRuntime) -> Result<(), Fail> {
    let cases = [
        (
            r#"{"weights":[1,1000],"names":["A"],"rtt":7}"#,
            2,
            "weights",
        ),
        (r#"{"weights":[1]}"#, 1, "weights"),
        (
            r#"{"weights":[1,2,3,4,5,6,7,8,9,10,11,12,13,14,15,16,17,18,19,20,21,22,23,24,25,26,27,28,29,30,31,32]}"#,
            32,
            "weights",
        ),
        ("", 2, "not-json"),
        (r#"{"weights":[1,1]"#, 2, "not-json"),
        ("[1,1]", 2, "bad-weights"),
        ("{}", 2, "bad-weights"),
        (r#"{"weights":1}"#, 1, "bad-weights"),
        (r#"{"weights":[1,1]}"#, 3, "bad-weights"),
        (r#"{"weights":[1,1,1]}"#, 2, "bad-weights"),
        (r#"{"weights":[1,0,1]}"#, 3, "bad-weights"),
        (r#"{"weights":[1,1001]}"#, 2, "bad-weights"),
        (r#"{"weights":[1,2.0]}"#, 2, "bad-weights"),
        (r#"{"weights":[-1,2]}"#, 2, "bad-weights"),
        (r#"{"weights":["1",2]}"#, 2, "bad-weights"),
    ];
    for (text, count, want) in cases {
        let line = match read_weights(rt.alloc(), text.as_bytes(), count) {
            Ok(_) => String::from_str(rt.alloc(), "weights")?,
            Err(refusal) => format!(in rt.alloc(); "{refusal}")?,
        };
        assert_eq!(rt; line.as_str(), want, "at {text}");
    }
    Ok(())
}

#[test]
fn what_is_read_is_what_the_text_says(rt: HostRuntime) -> Result<(), Fail> {
    let weights = read_weights(rt.alloc(), br#"{"weights":[7,1000,1]}"#, 3)?;
    assert_eq!(rt; weights.items(), [7, 1000, 1].as_slice());
    Ok(())
}

#[test]
fn lists_are_weights_or_a_flow_within_their_limits(rt: HostRuntime) -> Result<(), Fail> {
    let alloc = rt.alloc();
    assert!(rt; Weights::new(Vec::new(alloc)).is_none());
    assert!(rt; Weights::new(vec![in alloc; 1; 33]?).is_none());
    assert!(rt; Weights::new(vec![in alloc; 1, 0]?).is_none());
    assert!(rt; Weights::new(vec![in alloc; 1001]?).is_none());
    assert!(rt; Weights::new(vec![in alloc; 1000; 32]?).is_some());
    assert!(rt; Flow::new(Vec::new(alloc)).is_some());
    assert!(rt; Flow::new(vec![in alloc; 0, 1000]?).is_some());
    assert!(rt; Flow::new(vec![in alloc; 0, 1001]?).is_none());
    Ok(())
}
