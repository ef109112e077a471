//! The text of a document, as the program's words ask for it.

ghost use Rattle.std.specs.Prelude.{◌≡◌, IfErr, IfOk, string_bytes};
ghost use Rattle.html_render_tree.specs.Faults.{IsFaultOf};
ghost use Rattle.html_render_tree.specs.Program.{options_with_overflow, rendered_text, text_by};

use super::faults::Fault;
use super::words::{Preset, Settings};
use crate::config::{Config, plain, plain_no_decorate, rich};
use html_render_dom::dom::RcDom;
use html_render_parts::decorate::TextDecorator;
use std::alloc::Global;

/// Returns the configuration, with overflow if it is asked for.
fn overflowing_if<D: TextDecorator>(asked: bool, config: Config<D>) -> Config<D>
    ensures { result ≡ options_with_overflow asked config }
{
    if asked {
        config.allow_width_overflow()
    } else {
        config
    }
}

/// Renders a document under a configuration.
fn text_under<D: TextDecorator>(
    alloc: Global,
    config: &Config<D>,
    dom: RcDom,
    width: usize,
) -> Result<String, Fault>
    ensures ok { IfOk result (λ text. text_by D.decoration config.now dom width ≡ Ok (string_bytes text)) }
    ensures err { IfErr result (λ fault. IsFaultOf fault (text_by D.decoration config.now dom width)) }
{
    let tree = config.dom_into_render_tree(alloc, dom)?;
    Ok(config.render_to_string(alloc, tree, width)?)
}

/// Renders a document under a configuration, in the width of the settings and with their overflow.
fn text_with<D: TextDecorator>(
    alloc: Global,
    config: Config<D>,
    settings: &Settings,
    dom: RcDom,
) -> Result<String, Fault>
    ensures ok { IfOk result (λ text. text_by D.decoration (options_with_overflow settings.now.overflow config) dom settings.now.width ≡ Ok (string_bytes text)) }
    ensures err { IfErr result (λ fault. IsFaultOf fault (text_by D.decoration (options_with_overflow settings.now.overflow config) dom settings.now.width)) }
{
    let config = overflowing_if(settings.overflow, config);
    text_under(alloc, &config, dom, settings.width)
}

/// Renders a document with these settings.
pub fn rendered(alloc: Global, settings: &Settings, dom: RcDom) -> Result<String, Fault>
    ensures ok { IfOk result (λ text. rendered_text settings.now dom ≡ Ok (string_bytes text)) }
    ensures err { IfErr result (λ fault. IsFaultOf fault (rendered_text settings.now dom)) }
{
    match settings.preset {
        Preset::Plain => text_with(alloc, plain(alloc)?, settings, dom),
        Preset::Rich => text_with(alloc, rich(alloc), settings, dom),
        Preset::Bare => text_with(alloc, plain_no_decorate(alloc), settings, dom),
    }
}
