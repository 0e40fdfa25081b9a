use std::test::Fail;
use wy_sample::{sample, summary};

const ONE: &str = r#"type Step
  effect E
  def go(t: Int): {E} Int
resource module m1(c: Console): Step
  effect E = {c.Out}
  def go(t: Int): {E} Int
    c.write("m1\n")
    t + 1
program
  grant console: Console
  instance x1 = m1(console)
  run: {console.Out, x1.E}
    console.write(text_show(x1.go(0)) ++ "\n")
"#;

const THREE: &str = r#"type Step
  effect E
  def go(t: Int): {E} Int
resource module m1(c: Console): Step
  effect E = {c.Out}
  def go(t: Int): {E} Int
    c.write("m1\n")
    t + 1
resource module m2(s: Step): Step
  effect E = {s.E}
  def go(t: Int): {E} Int = s.go(t) + 2
resource module m3(s: Step): Step
  effect E = {s.E}
  def go(t: Int): {E} Int = s.go(t) + 3
program
  grant console: Console
  instance x1 = m1(console)
  instance x2 = m2(x1)
  instance x3 = m3(x2)
  run: {console.Out, x3.E}
    console.write(text_show(x3.go(0)) ++ "\n")
"#;

const LAST_OF_MOST: &str = r#"  instance x199 = m199(x198)
  instance x200 = m200(x199)
  run: {console.Out, x200.E}
    console.write(text_show(x200.go(0)) ++ "\n")
"#;

#[test]
fn a_sample_has_so_many_modules_and_instances(rt: HostRuntime) -> Result<(), Fail> {
    let alloc = rt.alloc();
    assert_eq!(rt; sample(alloc, 1)?.as_bytes(), ONE.as_bytes());
    assert_eq!(rt; sample(alloc, 3)?.as_bytes(), THREE.as_bytes());
    let most = sample(alloc, 200)?;
    assert_eq!(rt; most.as_bytes().len(), 24_842);
    assert!(rt; most.as_bytes().ends_with(LAST_OF_MOST.as_bytes()));
    Ok(())
}

#[test]
fn a_run_is_summed_up_in_a_line(rt: HostRuntime) -> Result<(), Fail> {
    let alloc = rt.alloc();
    assert_eq!(rt;
        summary(alloc, 3, 7)?.as_bytes(),
        b"sample 3: instances 3, bodies 7\n".as_slice()
    );
    assert_eq!(rt;
        summary(alloc, 200, 401)?.as_bytes(),
        b"sample 200: instances 200, bodies 401\n".as_slice()
    );
    Ok(())
}
