ghost use Rattle.std.specs.Prelude.{◌≡◌, ◌++◌, codes, decimal, fold, map, option_map};
ghost use Rattle.std.specs.Prelude.{string_bytes, IfOk, OnOk};
ghost use Rattle.serde_json.specs.Data.{string};
ghost use Rattle.serde_json.specs.View.{items_of};
ghost use Rattle.serde_json.specs.Written.{compact_text};
ghost use Rattle.an_base.specs.Write.{item_commas, item_text, member_text};
ghost use Rattle.an_list.specs.Page.{texts_beside};
ghost use Rattle.an_search.specs.Search.{search_context};
ghost use Rattle.an_list.specs.PageText.{text_if};
ghost use Rattle.an_query.specs.Form.{with_given};
ghost use Rattle.an_complete.specs.Complete.{ask_form, ask_iri, given_parameters, term_tree};
ghost use Rattle.an_complete.specs.Complete.{terms_page};

use crate::ask::Ask;
use an_base::{
    Bytes, Name, TermTotal, Text, close_members, push_array_member, push_comma, push_number_member,
    push_text_member,
};
use an_code::Parameter;
use an_iri::complete_iri;
use an_list::push_ignored;
use an_query::{append_filters, append_given};
use an_search::SEARCH_CONTEXT;
use form_urlencoded::Serializer;
use std::alloc::{AllocError, Global};

/// The IRI of a completion.
pub(crate) fn ask_iri(
    alloc: Global,
    base: &str,
    manifest: &Name,
    ask: &Ask,
) -> Result<String, AllocError>
    ensures iri { IfOk result (λ iri. string_bytes iri ≡ ask_iri base.now manifest.now ask.now) }
{
    let service = complete_iri(alloc, base, manifest.as_str())?;
    let form = ask_form(alloc, ask)?;
    format!(in alloc; "{service}?{form}")
}

/// The parameters that were given, as a form writes them.
#[tactic(auto, unfolding(crate::specs::Complete::ask_form))]
fn ask_form(alloc: Global, ask: &Ask) -> Result<String, AllocError>
    ensures { IfOk result (λ form. string_bytes form ≡ ask_form ask.now) }
{
    let mut form = Serializer::new(String::new(alloc));
    append_ask(alloc, &mut form, ask)?;
    Ok(form.finish())
}

/// Writes the parameters of a completion that were given behind a form.
pub fn append_ask(alloc: Global, form: &mut Serializer, ask: &Ask) -> Result<(), AllocError>
    ensures written { OnOk result (form.new ≡ record form.old {
      form = fold with_given form.old.form (given_parameters ask.now);
    }) }
{
    let min = min_text(alloc, ask.min())?;
    form.append_pair(Parameter::Q.text(), ask.q())?;
    append_given(form, Parameter::Min, min.as_ref())?;
    append_filters(form, ask.filters())
}

/// The number as it was given.
fn min_text(alloc: Global, min: Option<u32>) -> Result<Option<Text>, AllocError>
    ensures { IfOk result (λ text. text ≡ option_map decimal min) }
{
    match min {
        Some(min) => Ok(Some(Text::from_string(format!(in alloc; "{min}")?))),
        None => Ok(None),
    }
}

/// The text of the page of this IRI with these terms, its members in the order of their names.
pub fn terms_text(
    alloc: Global,
    iri: &str,
    ignored: &[Text],
    terms: &[TermTotal],
) -> Result<Bytes, AllocError>
    ensures text { IfOk result
        (λ text. text ≡ compact_text (terms_page iri.now ignored.now terms.now)) }
{
    let items = push_terms(Vec::new(alloc), terms)?;
    let out = push_head(Vec::new(alloc), iri, ignored)?;
    let out = push_array_member(out, "items", items.as_slice())?;
    let out = push_text_member(out, "type", "TermPage")?;
    let out = close_members(out, 0)?;
    Ok(Bytes::from_vec(out))
}

/// Writes the context, the page's IRI, and the names of parameters that were ignored.
fn push_head(out: Vec<u8>, iri: &str, ignored: &[Text]) -> Result<Vec<u8>, AllocError>
    ensures text { IfOk result (λ v. v.items ≡ out.items
        ++ (member_text (codes "@context") (string search_context)
        ++ (member_text (codes "id") (string iri.now)
        ++ text_if (codes "ignored") (texts_beside ignored.now)))) }
{
    let out = push_text_member(out, "@context", SEARCH_CONTEXT)?;
    let out = push_text_member(out, "id", iri)?;
    let out = push_ignored(out, ignored)?;
    Ok(out)
}

/// Writes terms as items, each behind a comma.
fn push_terms(out: Vec<u8>, terms: &[TermTotal]) -> Result<Vec<u8>, AllocError>
    ensures text { IfOk result
        (λ v. v.items ≡ out.items ++ item_commas (items_of (map term_tree terms.now))) }
{
    let mut out = out;
    for term in terms {
        out = push_term_item(out, term)?;
    }
    Ok(out)
}

fn push_term_item(out: Vec<u8>, term: &TermTotal) -> Result<Vec<u8>, AllocError>
    ensures text { IfOk result (λ v. v.items ≡ out.items ++ item_text (term_tree term.now)) }
{
    let out = push_comma(out)?;
    let out = push_term(out, term)?;
    Ok(out)
}

/// Writes a term and its total.
fn push_term(out: Vec<u8>, term: &TermTotal) -> Result<Vec<u8>, AllocError>
    ensures text { IfOk result (λ v. v.items ≡ out.items ++ compact_text (term_tree term.now)) }
{
    let start = out.len();
    let out = push_number_member(out, "total", term.total)?;
    let out = push_text_member(out, "value", term.term.as_str())?;
    let out = close_members(out, start)?;
    Ok(out)
}
