//! Generating a boot of so many services.

ghost use Rattle.std.specs.Prelude.{◌≡◌, ◌≤◌, ◌++◌, IfOk, OnOk, string_bytes};
ghost use Rattle.script_lang.specs.Generated.{each_to, generated, root_text, script_text};
ghost use Rattle.script_lang.specs.Generated as spec;

use init_base::{NoMemory, Text};
use std::alloc::Global;

/// The files of a tree, and the script over it.
#[derive(Debug, Drop)]
pub struct Generated {
    /// The root rc file.
    pub root: Text,
    /// The contexts of properties.
    pub contexts: Text,
    /// What domains may set.
    pub allow: Text,
    pub script: Text,
}

/// Generates a boot of so many services, at which a client sets and reads as many properties.
pub fn generate(alloc: Global, n: u32) -> Result<Generated, NoMemory>
    requires some { 1 ≤ n }
    requires within { n ≤ 1000 }
    ensures { IfOk result (λ made. made ≡ generated n) }
{
    Ok(Generated {
        root: root(alloc, n)?,
        contexts: Text::of(alloc, b"* default_prop\n")?,
        allow: Text::of(alloc, b"allow d default_prop\n")?,
        script: script(alloc, n)?,
    })
}

#[tactic(auto, using(crate::proofs::Counted::each_to_more))]
fn root(alloc: Global, services: u32) -> Result<Text, NoMemory>
    requires { services ≤ 1000 }
    ensures { IfOk result (λ text. text ≡ root_text services) }
{
    let mut page = String::new(alloc);
    page.push_str("on boot\nclass_start default\non late-init\ntrigger boot\n")?;
    for before in 0..services {
        service_lines(&mut page, before + 1)?;
    }
    Text::from_vec(page.into_bytes())
}

#[tactic(auto, unfolding(crate::specs::Generated::service_lines))]
fn service_lines(page: &mut String, number: u32) -> Result<(), NoMemory>
    ensures { OnOk result (string_bytes page.new ≡ string_bytes page.old ++ spec.service_lines number) }
{
    service_line(page, number)?;
    trigger_line(page, number)?;
    setprop_line(page, number)
}

#[tactic(auto, unfolding(crate::specs::Generated::service_line))]
fn service_line(page: &mut String, number: u32) -> Result<(), NoMemory>
    ensures { OnOk result (string_bytes page.new ≡ string_bytes page.old ++ spec.service_line number) }
{
    writeln!(page, "service s{number} /bin/s{number}")?;
    Ok(())
}

#[tactic(auto, unfolding(crate::specs::Generated::trigger_line))]
fn trigger_line(page: &mut String, number: u32) -> Result<(), NoMemory>
    ensures { OnOk result (string_bytes page.new ≡ string_bytes page.old ++ spec.trigger_line number) }
{
    writeln!(page, "on property:p{number}=*")?;
    Ok(())
}

#[tactic(auto, unfolding(crate::specs::Generated::setprop_line))]
fn setprop_line(page: &mut String, number: u32) -> Result<(), NoMemory>
    ensures { OnOk result (string_bytes page.new ≡ string_bytes page.old ++ spec.setprop_line number) }
{
    writeln!(page, "setprop q{number} ${{p{number}}}")?;
    Ok(())
}

#[tactic(auto, using(crate::proofs::Counted::each_to_more))]
fn script(alloc: Global, services: u32) -> Result<Text, NoMemory>
    requires { services ≤ 1000 }
    ensures { IfOk result (λ text. text ≡ script_text services) }
{
    let mut page = String::new(alloc);
    page.push_str("client c d\nstep 3\n")?;
    for before in 0..services {
        ask_lines(&mut page, before + 1)?;
    }
    writeln!(page, "step {}", services + 1)?;
    Text::from_vec(page.into_bytes())
}

#[tactic(auto, unfolding(crate::specs::Generated::ask_lines))]
fn ask_lines(page: &mut String, number: u32) -> Result<(), NoMemory>
    ensures { OnOk result (string_bytes page.new ≡ string_bytes page.old ++ spec.ask_lines number) }
{
    writeln!(page, "@c set p{number} {number}")?;
    writeln!(page, "@c read p{number}")?;
    Ok(())
}
