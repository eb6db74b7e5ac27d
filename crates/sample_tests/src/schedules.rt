// The schedules of numbers, each compared whole with what is read of a text that another generator wrote.
ghost use Rattle.std.specs.Prelude.{◌≤◌};

use sample_schedules::make_schedule;
use schedule_text::read_schedule;
use std::alloc::Global;
use std::test::Fail;

const ONE_STEP: &str =
    r#"{"plan":{"latency":[1000,1000],"names":["s0","s1"],"pair":[0,1],"rtt":[[0,1000],[1000,0]],"total":2000,"offset":[[0,0],[0,0]],"version":1},"steps":[{"site":1,"inputs":[{"at":1424,"reads":[["k36","current"]],"writes":[["k25","0"]]}]}]}"#;

const FORTY_STEPS: &str =
    r#"{"plan":{"latency":[2000,2000,2000],"names":["s0","s1","s2"],"pair":[0,1,2],"rtt":[[0,1000,2000],[1000,0,1000],[2000,1000,0]],"total":6000,"offset":[[0,1000,0],[1000,0,1000],[0,1000,0]],"version":1},"steps":[{"site":2,"inputs":[{"at":471,"pull":1}]},{"site":1,"inputs":[{"at":5099,"reads":[["k29","current"]],"writes":[["k39","1"]]}]},{"site":0,"inputs":[{"at":6507,"reads":[["k4","current"]],"writes":[["k23","2"]]}]},{"site":0,"inputs":[{"at":5692,"reads":[["k35","current"]],"writes":[["k13","3"]]}]},{"site":2,"inputs":[{"at":8583,"pull":1}]},{"site":1,"inputs":[{"at":5102,"reads":[["k3","current"]],"writes":[["k11","5"]]}]},{"site":2,"inputs":[{"at":8949,"pull":1}]},{"site":1,"inputs":[{"at":8259,"reads":[["k6","current"]],"writes":[["k21","7"]]}],"stop":{"call":2,"keep":1}},{"site":1,"inputs":[{"at":8084,"push":0}]},{"site":2,"inputs":[{"at":10750,"reads":[["k8","current"]],"writes":[["k0","9"]]}]},{"site":0,"inputs":[{"at":14565,"pull":1}]},{"site":2,"inputs":[{"at":11400,"reads":[["k6","current"]],"writes":[["k23","11"]]}]},{"site":0,"inputs":[{"at":14087,"pull":1}]},{"site":1,"inputs":[{"at":13843,"push":3}]},{"site":2,"inputs":[{"at":15954,"reads":[["k9","current"]],"writes":[["k40","14"]]}]},{"site":1,"inputs":[{"at":15293,"reads":[["k27","current"]],"writes":[["k47","15"]]}],"stop":{"call":2,"keep":0}},{"site":1,"inputs":[{"at":19151,"push":2}]},{"site":0,"inputs":[{"at":19640,"reads":[["k30","current"]],"writes":[["k28","17"]]}]},{"site":1,"inputs":[{"at":21589,"reads":[["k16","current"]],"writes":[["k8","18"]]}]},{"site":2,"inputs":[{"at":21947,"reads":[["k8","current"]],"writes":[["k24","19"]]}]},{"site":0,"inputs":[{"at":21516,"pull":1}]},{"site":1,"inputs":[{"at":25709,"push":4}]},{"site":1,"inputs":[{"at":26919,"reads":[["k5","current"]],"writes":[["k13","22"]]}]},{"site":0,"inputs":[{"at":27967,"pull":2}]},{"site":0,"inputs":[{"at":28483,"reads":[["k33","current"]],"writes":[["k2","24"]]}]},{"site":2,"inputs":[{"at":25729,"reads":[["k9","current"]],"writes":[["k11","25"]]}]},{"site":0,"inputs":[{"at":27914,"reads":[["k13","current"]],"writes":[["k31","26"]]}]},{"site":1,"inputs":[{"at":28187,"push":5}]},{"site":1,"inputs":[{"at":31483,"pull":2}]},{"site":1,"inputs":[{"at":32860,"push":1}]},{"site":0,"inputs":[{"at":32422,"reads":[["k26","current"]],"writes":[["k47","30"]]}]},{"site":1,"inputs":[{"at":33279,"push":5}]},{"site":1,"inputs":[{"at":33553,"push":0}]},{"site":2,"inputs":[{"at":34320,"reads":[["k37","current"]],"writes":[["k41","33"]]}]},{"site":1,"inputs":[{"at":35367,"push":4}]},{"site":0,"inputs":[{"at":38894,"reads":[["k48","current"]],"writes":[["k1","35"]]}]},{"site":1,"inputs":[{"at":38370,"push":0}]},{"restart":2},{"site":0,"inputs":[{"at":39289,"reads":[["k18","current"]],"writes":[["k41","38"]]}]},{"site":1,"inputs":[{"at":40403,"reads":[["k43","current"]],"writes":[["k13","39"]]}]}]}"#;

fn made(alloc: Global, number: u64, sites: u8, steps: u64) -> Result<String, Fail>
    requires some { 2 ≤ sites }
    requires few { sites ≤ 32 }
    requires short { steps ≤ 100000 }
{
    let schedule = make_schedule(alloc, number, sites, steps)?;
    Ok(format!(in alloc; "{schedule:?}")?)
}

fn read(alloc: Global, text: &str) -> Result<String, Fail> {
    match read_schedule(alloc, text.as_bytes()) {
        Ok(schedule) => Ok(format!(in alloc; "{schedule:?}")?),
        Err(refusal) => Ok(format!(in alloc; "refused {refusal}")?),
    }
}

#[test]
fn one_step_at_two_sites(rt: HostRuntime) -> Result<(), Fail> {
    let made = made(rt.alloc(), 0, 2, 1)?;
    let read = read(rt.alloc(), ONE_STEP)?;
    assert_eq!(rt; made, read);
    Ok(())
}

#[test]
fn forty_steps_of_each_kind_at_three_sites(rt: HostRuntime) -> Result<(), Fail> {
    let made = made(rt.alloc(), 15, 3, 40)?;
    let read = read(rt.alloc(), FORTY_STEPS)?;
    assert_eq!(rt; made, read);
    Ok(())
}
