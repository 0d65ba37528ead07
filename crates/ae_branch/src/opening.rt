// What opens a branch.
ghost use Rattle.std.specs.Prelude.{◌≡◌, ◌++◌, ◌∷◌, [], if◌then◌else◌, map, All, IfOk, OnOk};
ghost use Rattle.std.specs.List.{AllByRecursion, cons_option, filter, filter_map};
ghost use Rattle.ae_base.specs.Names.{IsUser};
ghost use Rattle.ae_base.specs.Words.{roles};
ghost use Rattle.ae_base.specs.declared.words.Role.{Role};
ghost use Rattle.ae_lines.specs.Acts.{MayBePlanned};
ghost use Rattle.ae_text.specs.Tree.{fields, word};
ghost use Rattle.ae_text.specs.View.{members_of, named_node, node};
ghost use Rattle.ae_types.specs.Roles.{is_administrators, users_of};
ghost use Rattle.ae_types.specs.Settings.{flag_word};
ghost use Rattle.ae_branch.specs.Opening.{attribute_fields, attributes_of, attributes_path, attributes_text, give, giving, giving_act, is_given, new_project, opening_acts, role_act, users_given};

use ae_base::{Path, PathList, ProjectName, Role, Text, User, UserList};
use ae_dist::{ActList, command};
use ae_lines::Act;
use ae_outside::Dir;
use ae_text::{Field, FieldList, Tree, print_tree};
use ae_types::{Attributes, Project, State, UserSet};
use ae_words::{Command, Function};
use std::alloc::{AllocError, Global};

// ---- the attributes

// The path of the file that gives them.
fn attributes_path(alloc: Global) -> Result<Path, AllocError>
    ensures { IfOk result (λ path. path ≡ attributes_path) }
{
    match Path::read(alloc, b"branch.attr")? {
        Some(path) => Ok(path),
        None => unreachable!(),
    }
}

fn flag_word(flag: bool) -> &'static str
    ensures { result.now ≡ flag_word flag }
{
    if flag { "true" } else { "false" }
}

// Puts a word after the other fields.
fn put_word(
    fields: &mut Vec<Field>,
    alloc: Global,
    name: &[u8],
    text: &str,
) -> Result<(), AllocError>
    ensures { OnOk result (map named_node fields.new.items ≡
        map named_node fields.old.items ++ (name.now, word text.now) ∷ []) }
{
    let value = Tree::word(alloc, text.as_bytes())?;
    fields.push(Field::of(alloc, name, value)?)?;
    Ok(())
}

// Puts what the trunk has, in the order of the record.
fn put_attributes(
    fields: &mut Vec<Field>,
    alloc: Global,
    attributes: &Attributes,
) -> Result<(), AllocError>
    requires { fields.old.items ≡ [] }
    ensures { OnOk result (map named_node fields.new.items ≡ attribute_fields attributes.now) }
{
    let description = Tree::string(alloc, attributes.description.bytes())?;
    fields.push(Field::of(alloc, b"description", description)?)?;
    put_word(
        fields,
        alloc,
        b"developer_may_review",
        flag_word(attributes.developer_may_review),
    )?;
    put_word(
        fields,
        alloc,
        b"developer_may_integrate",
        flag_word(attributes.developer_may_integrate),
    )?;
    put_word(
        fields,
        alloc,
        b"reviewer_may_integrate",
        flag_word(attributes.reviewer_may_integrate),
    )?;
    put_word(
        fields,
        alloc,
        b"developers_may_create_changes",
        flag_word(attributes.developers_may_create_changes),
    )?;
    put_word(
        fields,
        alloc,
        b"develop_end_action",
        attributes.develop_end_action.word(),
    )?;
    put_word(
        fields,
        alloc,
        b"default_test_exemption",
        flag_word(attributes.default_test_exemption),
    )
}

fn structure_of(members: Vec<Field>) -> Tree
    ensures { node result ≡ fields (members_of (map named_node members.items)) }
{
    Tree::Fields(FieldList::of(members))
}

// What stands in that file.
fn attributes_tree(alloc: Global, attributes: &Attributes) -> Result<Tree, AllocError>
    ensures { IfOk result (λ tree. node tree ≡ fields (attributes_of attributes.now)) }
{
    let mut members = Vec::new(alloc);
    put_attributes(&mut members, alloc, attributes)?;
    Ok(structure_of(members))
}

// The text of that file.
fn attributes_text(alloc: Global, attributes: &Attributes) -> Result<Text, AllocError>
    ensures { IfOk result (λ text. text ≡ attributes_text attributes.now) }
{
    let tree = attributes_tree(alloc, attributes)?;
    Ok(Text::of(print_tree(alloc, &tree)?))
}

// ---- the project

// It is made, with these attributes.
fn new_project(alloc: Global, name: &ProjectName) -> Result<Command, AllocError>
    ensures { IfOk result (λ command. command ≡ new_project name.now) }
{
    let path = attributes_path(alloc)?;
    let name = name.copy(alloc)?;
    let mut made = command(
        alloc,
        Function::NewProject,
        None,
        Some(path),
        PathList::new(alloc),
    );
    made.name = Some(name);
    Ok(made)
}

// The acts before users are given their roles.
fn first_acts(
    alloc: Global,
    attributes: &Attributes,
    name: &ProjectName,
) -> Result<ActList, AllocError>
    ensures { IfOk result (λ acts. acts ≡
        Act.Put Dir.Here attributes_path (attributes_text attributes.now) ∷ Act.Run (new_project name.now) ∷ []) }
{
    let mut acts = ActList::new(alloc);
    let path = attributes_path(alloc)?;
    let text = attributes_text(alloc, attributes)?;
    acts.push(Act::Put(Dir::Here, path, text))?;
    acts.push(Act::Run(new_project(alloc, name)?))?;
    Ok(acts)
}

// ---- the roles

// The function that gives users a role.
fn giving(role: Role) -> Function
    ensures { result ≡ giving role }
{
    match role {
        Role::Administrator => Function::NewAdministrator,
        Role::Developer => Function::NewDeveloper,
        Role::Reviewer => Function::NewReviewer,
        Role::Integrator => Function::NewIntegrator,
    }
}

fn is_administrators(role: Role) -> bool
    ensures { result ≡ is_administrators role }
{
    match role {
        Role::Administrator => true,
        Role::Developer | Role::Reviewer | Role::Integrator => false,
    }
}

// Who begins the branch is its administrator already.
fn is_given(who: &User, role: Role, user: &User) -> bool
    ensures { result ≡ is_given who.now role user.now }
{
    !(is_administrators(role) && who.bytes() == user.bytes())
}

// Puts the user after the others, where he is given the role.
fn add_given(
    given: &mut UserList,
    alloc: Global,
    who: &User,
    role: Role,
    user: &User,
) -> Result<(), AllocError>
    ensures { OnOk result (given.new ≡
        given.old ++ (if is_given who.now role user.now then user.now ∷ [] else [])) }
{
    if !is_given(who, role, user) {
        return Ok(());
    }
    given.push(user.copy(alloc)?)
}

// Those of the users who are given the role.
fn users_given(
    alloc: Global,
    who: &User,
    role: Role,
    users: &[User],
) -> Result<UserList, AllocError>
    ensures { IfOk result (λ given. given ≡ filter (is_given who.now role) users.now) }
{
    let mut given = UserList::new(alloc);
    for user in users {
        add_given(&mut given, alloc, who, role, user)?;
    }
    Ok(given)
}

// Adds the command that gives the role to these users, where there are any.
fn add_giving(
    acts: &mut ActList,
    alloc: Global,
    role: Role,
    users: UserList,
) -> Result<(), AllocError>
    ensures { OnOk result (acts.new ≡ acts.old ++ cons_option (giving_act role users) []) }
{
    if users.len() == 0 {
        drop(users);
        return Ok(());
    }
    let mut give = command(alloc, giving(role), None, None, PathList::new(alloc));
    give.users = users;
    acts.push(Act::Run(give))
}

// Adds the command that gives the role to those of these users who are given it.
fn add_role(
    acts: &mut ActList,
    alloc: Global,
    who: &User,
    role: Role,
    users: &UserSet,
) -> Result<(), AllocError>
    ensures { OnOk result (acts.new ≡
        acts.old ++ cons_option (giving_act role (filter (is_given who.now role) users.now)) []) }
{
    let given = users_given(alloc, who, role, users.users())?;
    add_giving(acts, alloc, role, given)
}

// Adds the commands that give all roles.
fn add_roles(
    acts: &mut ActList,
    alloc: Global,
    who: &User,
    project: &Project,
) -> Result<(), AllocError>
    ensures { OnOk result (acts.new ≡ acts.old ++ filter_map (role_act who.now project.now) roles) }
{
    add_role(
        acts,
        alloc,
        who,
        Role::Administrator,
        &project.administrators,
    )?;
    add_role(acts, alloc, who, Role::Developer, &project.developers)?;
    add_role(acts, alloc, who, Role::Reviewer, &project.reviewers)?;
    add_role(acts, alloc, who, Role::Integrator, &project.integrators)
}

// The users are users: the proof knows it of each that is looked at.
fn note_users(users: &UserSet)
    ensures { AllByRecursion IsUser users.now }
{
    for user in users.users() {
        let _user = user.bytes();
    }
}

// So are those of each role.
fn note_roles(project: &Project)
    ensures { (role : Role) → AllByRecursion IsUser (users_of role project.now) }
{
    note_users(&project.administrators);
    note_users(&project.developers);
    note_users(&project.reviewers);
    note_users(&project.integrators);
}

// ---- all of them

/// The acts that open a branch of this name, as the trunk is, by this user.
pub(crate) fn opening_acts(
    alloc: Global,
    state: &State,
    who: &User,
    name: &ProjectName,
) -> Result<ActList, AllocError>
    ensures acts { IfOk result (λ acts. acts ≡ opening_acts state.now who.now name.now) }
    ensures formed { IfOk result (All MayBePlanned) }
{
    let project = state.project();
    note_roles(project);
    let _name = name.bytes();
    let mut acts = first_acts(alloc, &project.attributes, name)?;
    add_roles(&mut acts, alloc, who, project)?;
    Ok(acts)
}
